ghost use Rattle.std.specs.Prelude.{◌≡◌, ◌≢◌, ◌≤◌, List, ℕ, length, true, Some, Err, IfOk, IsErrOf};
ghost use Rattle.st_base.specs.Causes.{Rose};
ghost use Rattle.st_base.specs.Frames.{OnlyInput};
ghost use Rattle.mesh_files.specs.Files.{nodes_of, tets_of, AreOf};
ghost use Rattle.mesh_read.specs.Told.{FileTold};

use crate::files::{nodes_in, tets_in};
use crate::texts::read_text;
use crate::values::{Nodes, Tets};
use st_base::{Desk, MeshFault};
use std::alloc::Global;

/// Reads the nodes of a .node file from the open input.
///
/// ```rust
/// desk.open_input(b"out.node")?;
/// let nodes = read_nodes(alloc, &mut desk)?;
/// assert_eq!(rt; nodes.first(), 0);
/// ```
pub fn read_nodes<D: Desk>(alloc: Global, desk: &mut D) -> Result<Nodes, MeshFault>
    requires { (D.input desk.old).is_open ≡ true }
    ensures told { (text : List ℕ) → (D.input desk.old).left ≡ Some text →
        FileTold (λ n. n) (nodes_of text) result text (D.input desk.new).left }
    ensures fault { IsErrOf result MeshFault.ReadFault → Rose (D.input desk.old).faults (D.input desk.new).faults }
    ensures none { result ≢ Err MeshFault.ReadFault → (D.input desk.new).faults ≡ (D.input desk.old).faults }
    ensures later { (D.input desk.old).faults ≤ (D.input desk.new).faults }
    ensures is_open { (D.input desk.new).is_open ≡ true }
    ensures apart { OnlyInput D.Desk desk.old desk.new }
{
    match read_text(alloc, desk) {
        Ok(text) => nodes_in(alloc, text.as_slice()),
        Err(fault) => Err(fault),
    }
}

/// Reads the tetrahedra of an .ele file over these nodes from the open input. They are numbered from
/// the same number on as the nodes.
pub fn read_tets<D: Desk>(alloc: Global, desk: &mut D, nodes: &Nodes) -> Result<Tets, MeshFault>
    requires { (D.input desk.old).is_open ≡ true }
    ensures told { (text : List ℕ) → (D.input desk.old).left ≡ Some text →
        FileTold (λ t. t) (tets_of nodes.now text) result text (D.input desk.new).left }
    ensures of_nodes { IfOk result (AreOf (length nodes.now.places)) }
    ensures fault { IsErrOf result MeshFault.ReadFault → Rose (D.input desk.old).faults (D.input desk.new).faults }
    ensures none { result ≢ Err MeshFault.ReadFault → (D.input desk.new).faults ≡ (D.input desk.old).faults }
    ensures later { (D.input desk.old).faults ≤ (D.input desk.new).faults }
    ensures is_open { (D.input desk.new).is_open ≡ true }
    ensures apart { OnlyInput D.Desk desk.old desk.new }
{
    match read_text(alloc, desk) {
        Ok(text) => tets_in(alloc, nodes, text.as_slice()),
        Err(fault) => Err(fault),
    }
}
