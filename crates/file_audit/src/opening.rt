ghost use Rattle.std.specs.Prelude.{◌≡◌, ◌≢◌, ◌≤◌, List, ℕ, length, Some, Err, IfOk, IsErrOf, OnOk, OnErr};
ghost use Rattle.st_base.specs.Causes.{Rose};
ghost use Rattle.st_base.specs.Desk.{MayTry, with_name};
ghost use Rattle.st_base.specs.Frames.{OnlyOpeningInput};
ghost use Rattle.mesh_files.specs.Files.{nodes_of, tets_of, AreOf};
ghost use Rattle.file_audit.specs.Opening.{FileSays, FileTaken};

use mesh_read::{Nodes, Tets, read_nodes, read_tets};
use st_base::{Desk, Failed, MeshFault};
use std::alloc::Global;

/// Opens and reads the nodes of the .node file under a name. ReadFault: it could not be opened or
/// read.
pub fn nodes_under<D: Desk>(alloc: Global, desk: &mut D, name: &[u8]) -> Result<Nodes, MeshFault>
    ensures says { (text : List ℕ) → D.held desk.old name.now ≡ Some text →
        FileSays (λ n. n) result (nodes_of text) }
    ensures taken { (text : List ℕ) → D.held desk.old name.now ≡ Some text →
        FileTaken result (D.input desk.old) (D.input desk.new) text }
    ensures fault { IsErrOf result MeshFault.ReadFault → Rose (D.input desk.old).faults (D.input desk.new).faults }
    ensures none { result ≢ Err MeshFault.ReadFault → (D.input desk.new).faults ≡ (D.input desk.old).faults }
    ensures later { (D.input desk.old).faults ≤ (D.input desk.new).faults }
    ensures tried { OnOk result (D.tried desk.new ≡ with_name (D.tried desk.old) name.now) }
    ensures may_try { OnErr result (MayTry (D.tried desk.old) (D.tried desk.new) name.now) }
    ensures apart { OnlyOpeningInput D.Desk desk.old desk.new }
{
    match desk.open_input(name) {
        Ok(()) => read_nodes(alloc, desk),
        Err(Failed) => Err(MeshFault::ReadFault),
    }
}

/// Opens and reads the tetrahedra of the .ele file under a name, over these nodes. ReadFault: it
/// could not be opened or read.
pub fn tets_under<D: Desk>(
    alloc: Global,
    desk: &mut D,
    name: &[u8],
    nodes: &Nodes,
) -> Result<Tets, MeshFault>
    ensures says { (text : List ℕ) → D.held desk.old name.now ≡ Some text →
        FileSays (λ t. t) result (tets_of nodes.now text) }
    ensures taken { (text : List ℕ) → D.held desk.old name.now ≡ Some text →
        FileTaken result (D.input desk.old) (D.input desk.new) text }
    ensures of_nodes { IfOk result (AreOf (length nodes.now.places)) }
    ensures fault { IsErrOf result MeshFault.ReadFault → Rose (D.input desk.old).faults (D.input desk.new).faults }
    ensures none { result ≢ Err MeshFault.ReadFault → (D.input desk.new).faults ≡ (D.input desk.old).faults }
    ensures later { (D.input desk.old).faults ≤ (D.input desk.new).faults }
    ensures tried { OnOk result (D.tried desk.new ≡ with_name (D.tried desk.old) name.now) }
    ensures may_try { OnErr result (MayTry (D.tried desk.old) (D.tried desk.new) name.now) }
    ensures apart { OnlyOpeningInput D.Desk desk.old desk.new }
{
    match desk.open_input(name) {
        Ok(()) => read_tets(alloc, desk, nodes),
        Err(Failed) => Err(MeshFault::ReadFault),
    }
}
