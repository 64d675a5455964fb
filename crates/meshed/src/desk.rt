ghost use Rattle.std.specs.Prelude.{◌≡◌, ◌∷◌, [], List, ℕ, None, OnOk, IfOk, IfSome, map};
ghost use Rattle.st_base.specs.Desk.{IsStart};
ghost use Rattle.formats.specs.declared.Port.TheVariants.{Node, Ele, Face, Neigh, Trouble};
ghost use Rattle.desk_mem.specs.Meanings.{mem_input, mem_ports, mem_tried, mem_held, mem_state, port_part};
ghost use Rattle.desk_mem.specs.Parts.{names_of};
ghost use Rattle.meshed.specs.Files.{held_in, named, files_tried};
ghost use Rattle.meshed.specs.Taken.{HasDone, HasRefused, IsTaken};

use crate::answer::{Answer, File};
use desk_mem::MemDesk;
use st_base::{NoMemory, Port, Status};
use std::alloc::{AllocError, Global};

// Has the desk hold the files, the first of a name before later ones.
fn hold(desk: &mut MemDesk, files: &[File]) -> Result<(), NoMemory>
    requires { (name : List ℕ) → mem_held desk.old name ≡ None }
    ensures held { OnOk result ((name : List ℕ) → mem_held desk.new name ≡ held_in files.now name) }
    ensures state { mem_state desk.new ≡ mem_state desk.old }
{
    match files {
        [] => Ok(()),
        [first, rest @ ..] => {
            hold(desk, rest)?;
            desk.put_input(&first.name, &first.bytes)
        }
    }
}

/// A desk that holds the files, and on which nothing was done yet.
pub fn desk_of(alloc: Global, files: &[File]) -> Result<MemDesk, NoMemory>
    ensures start { IfOk result (λ desk. IsStart (mem_input desk) (mem_ports desk) (mem_tried desk)) }
    ensures held { IfOk result (λ desk. (name : List ℕ) → mem_held desk name ≡ held_in files.now name) }
{
    let mut desk = MemDesk::new(alloc);
    hold(&mut desk, files)?;
    Ok(desk)
}

// A file with copies of a name and of bytes.
fn file_of(alloc: Global, name: &[u8], bytes: &[u8]) -> Result<File, AllocError>
    ensures { IfOk result (λ file. named file ≡ record { name = name.now; bytes = bytes.now }) }
{
    let name = name.to_vec(alloc)?;
    let bytes = bytes.to_vec(alloc)?;
    Ok(File { name, bytes })
}

// The files of nodes and tetrahedra.
fn mesh_files(
    alloc: Global,
    desk: &MemDesk,
    node: &[u8],
    ele: &[u8],
) -> Result<Vec<File>, AllocError>
    ensures { IfOk result (λ files. map named files.items ≡ record { name = node.now; bytes = (port_part desk.now Node).text.items } ∷ record { name = ele.now; bytes = (port_part desk.now Ele).text.items } ∷ []) }
{
    let mut files = Vec::new(alloc);
    files.push(file_of(alloc, node, desk.text(Port::Node))?)?;
    files.push(file_of(alloc, ele, desk.text(Port::Ele))?)?;
    Ok(files)
}

// The same, and those of faces and neighbours.
fn all_mesh_files(
    alloc: Global,
    desk: &MemDesk,
    node: &[u8],
    ele: &[u8],
    face: &[u8],
    neigh: &[u8],
) -> Result<Vec<File>, AllocError>
    ensures { IfOk result (λ files. map named files.items ≡ record { name = node.now; bytes = (port_part desk.now Node).text.items } ∷ record { name = ele.now; bytes = (port_part desk.now Ele).text.items } ∷ record { name = face.now; bytes = (port_part desk.now Face).text.items } ∷ record { name = neigh.now; bytes = (port_part desk.now Neigh).text.items } ∷ []) }
{
    let mut files = Vec::new(alloc);
    files.push(file_of(alloc, node, desk.text(Port::Node))?)?;
    files.push(file_of(alloc, ele, desk.text(Port::Ele))?)?;
    files.push(file_of(alloc, face, desk.text(Port::Face))?)?;
    files.push(file_of(alloc, neigh, desk.text(Port::Neigh))?)?;
    Ok(files)
}

// The files whose names were tried behind that of the input, with the texts of their ports.
fn files_of(alloc: Global, desk: &MemDesk) -> Result<Vec<File>, AllocError>
    ensures { IfOk result (λ files. map named files.items ≡ files_tried (mem_state desk.now).tried (λ p. (port_part desk.now p).text.items)) }
{
    match desk.names() {
        [_, node, ele] => mesh_files(alloc, desk, node, ele),
        [_, node, ele, face, neigh] => all_mesh_files(alloc, desk, node, ele, face, neigh),
        _ => Ok(Vec::new(alloc)),
    }
}

// What stands on the ports of a desk where a command is done.
fn done(alloc: Global, desk: &MemDesk) -> Result<Answer, AllocError>
    ensures { IfOk result (λ answer. HasDone desk.now answer) }
{
    let files = files_of(alloc, desk)?;
    let report = desk.text(Port::Report).to_vec(alloc)?;
    let trouble = desk.text(Port::Trouble).to_vec(alloc)?;
    Ok(Answer {
        status: Status::Done,
        files,
        report,
        trouble,
    })
}

// What stands on Trouble where it is not done.
fn refused(alloc: Global, status: Status, desk: &MemDesk) -> Result<Answer, AllocError>
    ensures { IfOk result (λ answer. HasRefused status desk.now answer) }
{
    let trouble = desk.text(Port::Trouble).to_vec(alloc)?;
    let mut answer = Answer::bare(alloc, status);
    answer.trouble = trouble;
    Ok(answer)
}

/// What a command left on a desk. None: Trouble failed, or memory ran out.
pub fn taken(alloc: Global, status: Status, desk: &MemDesk) -> Option<Answer>
    ensures fault { IfSome result (λ answer. (mem_ports desk.now Trouble).faults ≡ 0) }
    ensures taken { IfSome result (λ answer. IsTaken status desk.now answer) }
{
    if desk.faults(Port::Trouble) != 0 {
        return None;
    }
    match status {
        Status::Done => done(alloc, desk).ok(),
        _ => refused(alloc, status, desk).ok(),
    }
}
