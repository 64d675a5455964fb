ghost use Rattle.std.specs.Prelude.{◌≡◌, ◌≢◌, ◌++◌, ◌∷◌, [], ℕ, Bool, List, map, false, IfOk, IfErr, OnOk};
ghost use Rattle.formats.specs.declared.Port.{Port};
ghost use Rattle.formats.specs.declared.Port.TheVariants.{Report, Trouble};
ghost use Rattle.st_base.specs.Desk.{IsFile};
ghost use Rattle.stuff.specs.Ports.{HasNoFault, IsAtOutput, mesh_files};
ghost use Rattle.stuff.specs.Outputs.{mesh_name};
ghost use Rattle.stuff.specs.Writing.{IsThis, Reaches, TriesFiles, names_of, ports_of};

use st_base::{Desk, Failed, NoMemory, Port, Status};
use std::alloc::{AllocError, Global};

/// A file that is to be opened: its port, and its name.
#[derive(Drop)]
pub struct MeshFile {
    pub port: Port,
    pub name: Vec<u8>,
}

// A name and its ending.
fn joined(alloc: Global, name: &[u8], ending: &[u8]) -> Result<Vec<u8>, AllocError>
    ensures { IfOk result (λ text. text.items ≡ name.now ++ ending.now) }
{
    let mut text = Vec::new(alloc);
    text.extend_from_slice(name)?;
    text.extend_from_slice(ending)?;
    Ok(text)
}

// One more file, whose name is `output` and an ending.
fn push_file(
    alloc: Global,
    files: &mut Vec<MeshFile>,
    port: Port,
    output: &[u8],
    ending: &[u8],
) -> Result<(), NoMemory>
    ensures ports { OnOk result (ports_of files.new.items ≡ ports_of files.old.items ++ port ∷ []) }
    ensures names { OnOk result (names_of files.new.items ≡ names_of files.old.items ++ (output.now ++ ending.now) ∷ []) }
{
    let Ok(name) = joined(alloc, output, ending) else {
        return Err(NoMemory);
    };
    if files.push(MeshFile { port, name }).is_err() {
        return Err(NoMemory);
    }
    Ok(())
}

// The files of a mesh, with its faces and neighbours if they are asked for. Their names are `output` with an ending.
fn files_of_mesh(alloc: Global, output: &[u8], faces: bool) -> Result<Vec<MeshFile>, NoMemory>
    ensures ports { IfOk result (λ files. ports_of files.items ≡ mesh_files faces) }
    ensures names { IfOk result (λ files. names_of files.items ≡ map (mesh_name output.now) (mesh_files faces)) }
{
    let mut files = Vec::new(alloc);
    push_file(alloc, &mut files, Port::Node, output, b".node")?;
    push_file(alloc, &mut files, Port::Ele, output, b".ele")?;
    if faces {
        push_file(alloc, &mut files, Port::Face, output, b".face")?;
        push_file(alloc, &mut files, Port::Neigh, output, b".neigh")?;
    }
    Ok(files)
}

// Opens the files of a mesh, one after another.
fn open_each<D: Desk>(desk: &mut D, files: &[MeshFile]) -> Result<(), Status>
    requires files { (faces : Bool) × (ports_of files.now ≡ mesh_files faces) }
    requires closed { (p : Port) → IsFile p → (D.ports desk.old p).is_open ≡ false }
    requires faults { HasNoFault (D.ports desk.old) }
    ensures kind { IfErr result IsAtOutput }
    ensures not_done { IfErr result (λ status. status ≢ Status.Done) }
    ensures reaches { (output : List ℕ) (faces : Bool) (texts : Port → List ℕ) → ports_of files.now ≡ mesh_files faces → names_of files.now ≡ map (mesh_name output) (mesh_files faces) → Reaches result D.ports (mesh_files faces) 0 (mesh_name output) (IsThis texts) desk.old desk.new }
    ensures tries { TriesFiles result (names_of files.now) (D.tried desk.old) (D.tried desk.new) }
    ensures input { D.input desk.new ≡ D.input desk.old }
    ensures report { D.ports desk.new Report ≡ D.ports desk.old Report }
    ensures trouble { D.ports desk.new Trouble ≡ D.ports desk.old Trouble }
    ensures held { (n : List ℕ) → D.held desk.new n ≡ D.held desk.old n }
{
    for k in 0..files.len() {
        let file = &files[k];
        match desk.open_output(file.port, &file.name) {
            Ok(()) => {}
            Err(Failed) => return Err(Status::WriteFault { port: file.port }),
        }
    }
    Ok(())
}

/// Opens the files of a mesh, whose names are `output` with `.node` and `.ele`, and with `.face` and `.neigh` if the
/// faces and neighbours are asked for.
pub fn open_files<D: Desk>(
    alloc: Global,
    desk: &mut D,
    output: &[u8],
    faces: bool,
) -> Result<(), Status>
    requires closed { (p : Port) → IsFile p → (D.ports desk.old p).is_open ≡ false }
    requires faults { HasNoFault (D.ports desk.old) }
    ensures kind { IfErr result IsAtOutput }
    ensures not_done { IfErr result (λ status. status ≢ Status.Done) }
    ensures reaches { (texts : Port → List ℕ) → Reaches result D.ports (mesh_files faces) 0 (mesh_name output.now) (IsThis texts) desk.old desk.new }
    ensures tries { TriesFiles result (map (mesh_name output.now) (mesh_files faces)) (D.tried desk.old) (D.tried desk.new) }
    ensures input { D.input desk.new ≡ D.input desk.old }
    ensures report { D.ports desk.new Report ≡ D.ports desk.old Report }
    ensures trouble { D.ports desk.new Trouble ≡ D.ports desk.old Trouble }
    ensures held { (n : List ℕ) → D.held desk.new n ≡ D.held desk.old n }
{
    match files_of_mesh(alloc, output, faces) {
        Ok(files) => open_each(desk, &files),
        Err(NoMemory) => Err(Status::NoMemory),
    }
}
