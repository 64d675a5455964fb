ghost use Rattle.std.specs.Prelude.{◌≡◌, ◌+◌, ◌<◌, ◌≤◌, ◌^◌, length, IfOk, codes};
ghost use Rattle.std.specs.Str.{bytes_eq};
ghost use Rattle.mesh_files.specs.Files.{nodes_of, tets_of, number_at_start as number_in, AreOf};
ghost use Rattle.mesh_files.specs.Lines.{lines_from};
ghost use Rattle.mesh_read.specs.Told.{Says};

use crate::contents::{node_lines, tet_lines};
use crate::forms::{node_head, tet_head};
use crate::lines::next_line;
use crate::values::{Nodes, Tets};
use st_base::MeshFault;
use std::alloc::Global;
use text_words::next_word;

fn is_one(text: &[u8]) -> bool
    ensures { result ≡ bytes_eq text.now (codes "1") }
{
    text == b"1".as_slice()
}

// The number of the first node, where so many bytes stand before the text behind the first line.
fn number_at_start(text: &[u8], before: usize) -> u32
    requires { before + length text.now < 2 ^ 62 }
    ensures value { result ≡ number_in (lines_from before text.now) }
    ensures bound { result ≤ 1 }
{
    let Some(line) = next_line(text, before) else {
        return 0;
    };
    match next_word(line.content) {
        Some((field, _)) => { if is_one(field) { 1 } else { 0 } }
        None => 0,
    }
}

/// The nodes of a .node text.
pub fn nodes_in(alloc: Global, text: &[u8]) -> Result<Nodes, MeshFault>
    requires { length text.now ≤ 2 ^ 30 }
    ensures { Says (λ n. n) result (nodes_of text.now) }
{
    let Some(line) = next_line(text, 0) else {
        return Err(MeshFault::EndsEarly { got: 0, wanted: 1 });
    };
    let Some(head) = node_head(line.content) else {
        return Err(MeshFault::BadLine {
            place: line.place as u64,
        });
    };
    let first = number_at_start(line.rest, line.next);
    match node_lines(alloc, line.rest, line.next, head, first) {
        Ok(places) => Ok(Nodes::new(first, places)),
        Err(fault) => Err(fault),
    }
}

/// The tetrahedra of an .ele text over these nodes.
pub fn tets_in(alloc: Global, nodes: &Nodes, text: &[u8]) -> Result<Tets, MeshFault>
    requires { length text.now ≤ 2 ^ 30 }
    ensures says { Says (λ t. t) result (tets_of nodes.now text.now) }
    ensures of_nodes { IfOk result (AreOf (length nodes.now.places)) }
{
    let Some(line) = next_line(text, 0) else {
        return Err(MeshFault::EndsEarly { got: 0, wanted: 1 });
    };
    let Some(head) = tet_head(line.content) else {
        return Err(MeshFault::BadLine {
            place: line.place as u64,
        });
    };
    let first = nodes.first();
    let count = nodes.places().len() as u32;
    match tet_lines(alloc, line.rest, line.next, head, first, count) {
        Ok(tets) => Ok(Tets::new(tets)),
        Err(fault) => Err(fault),
    }
}
