ghost use Rattle.std.specs.Prelude.{◌≡◌, ◌++◌, decimal, OnOk, IfOk};
ghost use Rattle.file_audit.specs.Status.{sound_line};

use itoa::Buffer;
use st_base::NoMemory;
use std::alloc::{AllocError, Global};

// A word, and a number behind it.
fn add_count(text: &mut Vec<u8>, word: &[u8], count: u32) -> Result<(), AllocError>
    ensures { OnOk result (text.new.items ≡ text.old.items ++ (word.now ++ decimal count)) }
{
    let mut buffer = Buffer::new();
    text.extend_from_slice(word)?;
    text.extend_from_slice(buffer.format(count).as_bytes())?;
    Ok(())
}

#[tactic(auto, unfolding(crate::specs::Status::sound_line))]
fn line_of(alloc: Global, nodes: u32, tets: u32, boundary: u32) -> Result<Vec<u8>, AllocError>
    ensures { IfOk result (λ v. v.items ≡ sound_line nodes tets boundary) }
{
    let mut text = Vec::new(alloc);
    add_count(&mut text, b"sound nodes ", nodes)?;
    add_count(&mut text, b" tetrahedra ", tets)?;
    add_count(&mut text, b" boundary ", boundary)?;
    text.push(b'\n')?;
    Ok(text)
}

/// The line that tells how many nodes, tetrahedra and boundary triangles there are in a sound mesh.
pub fn sound_text(alloc: Global, nodes: u32, tets: u32, boundary: u32) -> Result<Vec<u8>, NoMemory>
    ensures { IfOk result (λ v. v.items ≡ sound_line nodes tets boundary) }
{
    match line_of(alloc, nodes, tets, boundary) {
        Ok(text) => Ok(text),
        Err(_) => Err(NoMemory),
    }
}
