ghost use Rattle.std.specs.Prelude.{◌≡◌, ◌≢◌, ◌⊎◌, ◌∷◌, [], ◌<◌, ℕ, List, true};
ghost use Rattle.formats.specs.declared.Port.{Port};
ghost use Rattle.formats.specs.declared.Port.TheVariants.{Report, Trouble};
ghost use Rattle.file_audit.specs.Opening.{PartlyTaken};
ghost use Rattle.file_audit.specs.Status.{node_name, ele_name, audit_status, AreRead};
ghost use Rattle.mesh_audit.specs.FitTogether.{FitTogether};
ghost use Rattle.mesh_files.specs.Files.{Nodes as NodesValue};
ghost use Rattle.st_base.specs.Desk.{SameInput};
ghost use Rattle.st_base.specs.Frames.{OnlyPort};
ghost use Rattle.stuff.specs.Ends.{AuditEnds, VerdictEnds};
ghost use Rattle.stuff.specs.Outputs.{verdict_line, IsAuditText};
ghost use Rattle.stuff.specs.Ports.{HasNoFault, PortsEnd};
ghost use Rattle.file_audit.specs.Status.{GrowsAlong, with_names};

use crate::files::write_report;
use file_audit::{audit_files, sound_text};
use st_base::{Desk, NoMemory, Status, Verdict};
use std::alloc::Global;

// Tells of a verdict: at Report, where the mesh is sound.
fn tell_verdict<D: Desk>(alloc: Global, desk: &mut D, verdict: Verdict) -> Status
    requires report { (D.ports desk.old Report).is_open ≡ true }
    requires faults { HasNoFault (D.ports desk.old) }
    ensures status { VerdictEnds result verdict }
    ensures report_open { (D.ports desk.new Report).is_open ≡ true }
    ensures ends { (name : Port → List ℕ) → PortsEnd D.ports result [] name (λ p text. text ≡ verdict_line verdict p) desk.old desk.new }
    ensures apart { OnlyPort D.Desk Report desk.old desk.new }
{
    match verdict {
        Verdict::Sound {
            nodes,
            tets,
            boundary,
        } => match sound_text(alloc, nodes, tets, boundary) {
            Ok(text) => write_report(desk, &text),
            Err(NoMemory) => Status::NoMemory,
        },
        verdict => Status::NotSound { verdict },
    }
}

/// Judges the finished files whose names are `name` with `.node` and `.ele`, and writes to Report that they are sound.
pub fn audit_finished<D: Desk>(alloc: Global, desk: &mut D, name: &[u8]) -> Status
    requires report { (D.ports desk.old Report).is_open ≡ true }
    requires faults { HasNoFault (D.ports desk.old) }
    requires no_input_fault { (D.input desk.old).faults ≡ 0 }
    ensures status { AuditEnds result (audit_status (D.held desk.old (node_name name.now)) (D.held desk.old (ele_name name.now))) }
    ensures sound { result ≡ Status.Done → (nodes : NodesValue) (tets : List (List ℕ)) → AreRead (D.held desk.old (node_name name.now)) (D.held desk.old (ele_name name.now)) nodes tets → FitTogether nodes.places tets }
    ensures taken { result ≡ Status.ReadFault → SameInput (D.input desk.old) (D.input desk.new)
        ⊎ (PartlyTaken (D.held desk.old (node_name name.now)) (D.input desk.new).left
        ⊎ PartlyTaken (D.held desk.old (ele_name name.now)) (D.input desk.new).left) }
    ensures fault { result ≡ Status.ReadFault → 0 < (D.input desk.new).faults }
    ensures none { result ≢ Status.ReadFault → (D.input desk.new).faults ≡ 0 }
    ensures report_open { (D.ports desk.new Report).is_open ≡ true }
    ensures ends { (name_of : Port → List ℕ) → PortsEnd D.ports result [] name_of (IsAuditText (D.held desk.old (node_name name.now)) (D.held desk.old (ele_name name.now))) desk.old desk.new }
    ensures trouble { D.ports desk.new Trouble ≡ D.ports desk.old Trouble }
    ensures tried { GrowsAlong (node_name name.now ∷ ele_name name.now ∷ []) (D.tried desk.old) (D.tried desk.new) }
    ensures all_tried { result ≡ Status.Done → D.tried desk.new ≡ with_names (D.tried desk.old) (node_name name.now ∷ ele_name name.now ∷ []) }
    ensures held { (n : List ℕ) → D.held desk.new n ≡ D.held desk.old n }
{
    match audit_files(alloc, desk, name) {
        Ok(verdict) => tell_verdict(alloc, desk, verdict),
        Err(status) => status,
    }
}
