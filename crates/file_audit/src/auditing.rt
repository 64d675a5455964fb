ghost use Rattle.std.specs.Prelude.{◌≡◌, ◌≢◌, ◌≤◌, ◌⊎◌, List, ℕ, [], ◌∷◌, Some, Ok, Err, IfOk, IsErrOf, OnOk, OnErr};
ghost use Rattle.std.specs.Option.{option_map};
ghost use Rattle.st_base.specs.Causes.{Rose};
ghost use Rattle.st_base.specs.Desk.{MayTry, SameInput, with_name};
ghost use Rattle.st_base.specs.Frames.{OnlyOpeningInput};
ghost use Rattle.mesh_files.specs.Files.{Nodes as NodesValue, tets_of};
ghost use Rattle.mesh_files.specs.Verdicts.{verdict};
ghost use Rattle.mesh_audit.specs.FitTogether.{FitTogether, IsSoundVerdict};
ghost use Rattle.file_audit.specs.Opening.{PartlyTaken};
ghost use Rattle.file_audit.specs.Status.{node_name as node_name_of, ele_name as ele_name_of, fault_status, tets_status, audit_status, AnswersAs, AreRead, GrowsAlong, with_names};

use crate::names::file_name;
use crate::opening::{nodes_under, tets_under};
use mesh_audit::audit;
use mesh_read::Nodes;
use st_base::{Desk, MeshFault, NoMemory, Port, Status, Verdict};
use std::alloc::Global;

fn refusal(file: Port, fault: MeshFault) -> Status
    ensures { result ≡ fault_status file fault }
{
    match fault {
        MeshFault::ReadFault => Status::ReadFault,
        MeshFault::NoMemory => Status::NoMemory,
        fault => Status::BadMesh { file, fault },
    }
}

// Reads and judges the tetrahedra under a name, over these nodes.
fn audit_tets<D: Desk>(
    alloc: Global,
    desk: &mut D,
    nodes: &Nodes,
    name: &[u8],
) -> Result<Verdict, Status>
    ensures told { AnswersAs (option_map (λ text. tets_status nodes.now (tets_of nodes.now text)) (D.held desk.old name.now)) result }
    ensures verdict { (text : List ℕ) (tets : List (List ℕ)) → D.held desk.old name.now ≡ Some text → tets_of nodes.now text ≡ Ok tets →
        IfOk result (λ v. v ≡ verdict nodes.now tets) }
    ensures sound { (text : List ℕ) (tets : List (List ℕ)) → D.held desk.old name.now ≡ Some text → tets_of nodes.now text ≡ Ok tets →
        IfOk result (λ v. IsSoundVerdict v → FitTogether nodes.now.places tets) }
    ensures taken { IsErrOf result Status.ReadFault →
        SameInput (D.input desk.old) (D.input desk.new) ⊎ PartlyTaken (D.held desk.old name.now) (D.input desk.new).left }
    ensures fault { IsErrOf result Status.ReadFault → Rose (D.input desk.old).faults (D.input desk.new).faults }
    ensures none { result ≢ Err Status.ReadFault → (D.input desk.new).faults ≡ (D.input desk.old).faults }
    ensures later { (D.input desk.old).faults ≤ (D.input desk.new).faults }
    ensures all_tried { OnOk result (D.tried desk.new ≡ with_name (D.tried desk.old) name.now) }
    ensures may_try { OnErr result (MayTry (D.tried desk.old) (D.tried desk.new) name.now) }
    ensures apart { OnlyOpeningInput D.Desk desk.old desk.new }
{
    match tets_under(alloc, desk, name, nodes) {
        Ok(tets) => match audit(alloc, nodes, &tets) {
            Ok(verdict) => Ok(verdict),
            Err(NoMemory) => Err(Status::NoMemory),
        },
        Err(fault) => Err(refusal(Port::Ele, fault)),
    }
}

// Reads and judges the files under two names.
fn audit_named<D: Desk>(
    alloc: Global,
    desk: &mut D,
    node: &[u8],
    ele: &[u8],
) -> Result<Verdict, Status>
    ensures told { AnswersAs (audit_status (D.held desk.old node.now) (D.held desk.old ele.now)) result }
    ensures verdict { (nodes : NodesValue) (tets : List (List ℕ)) → AreRead (D.held desk.old node.now) (D.held desk.old ele.now) nodes tets →
        IfOk result (λ v. v ≡ verdict nodes tets) }
    ensures sound { (nodes : NodesValue) (tets : List (List ℕ)) → AreRead (D.held desk.old node.now) (D.held desk.old ele.now) nodes tets →
        IfOk result (λ v. IsSoundVerdict v → FitTogether nodes.places tets) }
    ensures taken { IsErrOf result Status.ReadFault → SameInput (D.input desk.old) (D.input desk.new)
        ⊎ (PartlyTaken (D.held desk.old node.now) (D.input desk.new).left
        ⊎ PartlyTaken (D.held desk.old ele.now) (D.input desk.new).left) }
    ensures fault { IsErrOf result Status.ReadFault → Rose (D.input desk.old).faults (D.input desk.new).faults }
    ensures none { result ≢ Err Status.ReadFault → (D.input desk.new).faults ≡ (D.input desk.old).faults }
    ensures later { (D.input desk.old).faults ≤ (D.input desk.new).faults }
    ensures tried { GrowsAlong (node.now ∷ ele.now ∷ []) (D.tried desk.old) (D.tried desk.new) }
    ensures all_tried { OnOk result (D.tried desk.new ≡ with_names (D.tried desk.old) (node.now ∷ ele.now ∷ [])) }
    ensures apart { OnlyOpeningInput D.Desk desk.old desk.new }
{
    match nodes_under(alloc, desk, node) {
        Ok(nodes) => audit_tets(alloc, desk, &nodes, ele),
        Err(fault) => Err(refusal(Port::Node, fault)),
    }
}

/// Opens, reads and judges the files NAME.node and NAME.ele.
///
/// Errors are `ReadFault`: a file could not be opened or read; `NoMemory`; and `BadMesh`: a file has
/// a fault.
///
/// ```rust
/// let verdict = audit_files(alloc, &mut desk, b"out")?;
/// ```
pub fn audit_files<D: Desk>(alloc: Global, desk: &mut D, name: &[u8]) -> Result<Verdict, Status>
    ensures told { AnswersAs (audit_status (D.held desk.old (node_name_of name.now)) (D.held desk.old (ele_name_of name.now))) result }
    ensures verdict { (nodes : NodesValue) (tets : List (List ℕ)) → AreRead (D.held desk.old (node_name_of name.now)) (D.held desk.old (ele_name_of name.now)) nodes tets →
        IfOk result (λ v. v ≡ verdict nodes tets) }
    ensures sound { (nodes : NodesValue) (tets : List (List ℕ)) → AreRead (D.held desk.old (node_name_of name.now)) (D.held desk.old (ele_name_of name.now)) nodes tets →
        IfOk result (λ v. IsSoundVerdict v → FitTogether nodes.places tets) }
    ensures taken { IsErrOf result Status.ReadFault → SameInput (D.input desk.old) (D.input desk.new)
        ⊎ (PartlyTaken (D.held desk.old (node_name_of name.now)) (D.input desk.new).left
        ⊎ PartlyTaken (D.held desk.old (ele_name_of name.now)) (D.input desk.new).left) }
    ensures fault { IsErrOf result Status.ReadFault → Rose (D.input desk.old).faults (D.input desk.new).faults }
    ensures none { result ≢ Err Status.ReadFault → (D.input desk.new).faults ≡ (D.input desk.old).faults }
    ensures later { (D.input desk.old).faults ≤ (D.input desk.new).faults }
    ensures tried { GrowsAlong (node_name_of name.now ∷ ele_name_of name.now ∷ []) (D.tried desk.old) (D.tried desk.new) }
    ensures all_tried { OnOk result (D.tried desk.new ≡ with_names (D.tried desk.old) (node_name_of name.now ∷ ele_name_of name.now ∷ [])) }
    ensures apart { OnlyOpeningInput D.Desk desk.old desk.new }
{
    let Ok(node) = file_name(alloc, name, b".node") else {
        return Err(Status::NoMemory);
    };
    let Ok(ele) = file_name(alloc, name, b".ele") else {
        return Err(Status::NoMemory);
    };
    audit_named(alloc, desk, node.as_slice(), ele.as_slice())
}
