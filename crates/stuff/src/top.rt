ghost use Rattle.std.specs.Prelude.{◌≡◌, ◌≢◌, ◌⊎◌, ◌↔◌, ◌<◌, ℕ, List, true, false, Some, None};
ghost use Rattle.std.specs.Io.KnownBytes.{Appends};
ghost use Rattle.definitions.specs.Values.{Field};
ghost use Rattle.formats.specs.Faults.{trouble_text};
ghost use Rattle.command_line.specs.Grammar.{Command as Meaning, AuditFiles, MakeDemo, Reads, IsBadPlace};
ghost use Rattle.command_line.specs.declared.Plan.{Plan};
ghost use Rattle.formats.specs.declared.Port.{Port};
ghost use Rattle.formats.specs.declared.Port.TheVariants.{Report, Trouble};
ghost use Rattle.file_audit.specs.Opening.{PartlyTaken};
ghost use Rattle.file_audit.specs.Status.{audit_status, AreRead};
ghost use Rattle.mesh_audit.specs.FitTogether.{FitTogether};
ghost use Rattle.mesh_files.specs.Files.{Nodes as NodesValue};
ghost use Rattle.st_base.specs.Desk.{IsStart, AppendsPart};
ghost use Rattle.stuff.specs.Inputs.{IsInput, IsLeft, BreaksOff, outcome_for};
ghost use Rattle.stuff.specs.Outputs.{files_of, file_name, all_names, nodes_told, tets_told, status_of_input, AreJoinedFor, IsBoundedFor, IsSoundFor, IsTextFor};
ghost use Rattle.stuff.specs.Traces.{IsFieldFor, TraceEnds};
ghost use Rattle.stuff.specs.Ports.{HasNoFault, HasWritten, KeepsPorts, PortsEnd};
ghost use Rattle.file_audit.specs.Status.{GrowsAlong, with_names};
ghost use Rattle.stuff.specs.Ends.{Accepts, AuditEnds, IsOutcome, LeavesPorts};

use crate::Outcome;
use crate::run::run;
use crate::trouble::tell;
use st_base::{Desk, Gate, Status, Words};
use std::alloc::Global;
use std::thread::Threads;

/// Carries out the command that the words are, over a desk on which nothing was done yet.
///
/// `count IN level=L` writes to Report how many vertices of the lattice over the volume IN have a
/// value above, on and below the level, or below, on and above it with `below=yes`; with `step=S` over
/// each S-th sample on each axis alone. `mesh IN OUT level=L` writes the tetrahedral mesh of the
/// region above the level to OUT.node and OUT.ele, and with `faces=yes` its boundary triangles and the neighbours of its
/// tetrahedra to OUT.face and OUT.neigh; and to Report how many nodes and tetrahedra it has and its least
/// and greatest angle. `stream` does the same without faces, and writes while it makes the mesh. `demo size=N seed=S`
/// does so for a volume that is made from a size and a seed, at level 199.5, and writes the signs and the report to
/// Report alone. `audit IN` judges the files IN.node and IN.ele without any knowledge of how they were made, and
/// writes to Report that they are sound. `probe IN level=L at=X,Y,Z` writes to Report which tetrahedron of the mesh holds a point.
/// A mesh is made by `workers=` workers in threads of the runtime, slab by slab; each passes the gate before a slab.
pub fn stuff<R: Threads + Sync, D: Desk + Send, G: Gate + Sync>(
    rt: &R,
    alloc: Global,
    words: &Words,
    desk: &mut D,
    gate: &G,
) -> Outcome
    requires { IsStart (D.input desk.old) (D.ports desk.old) (D.tried desk.old) }

    // The causes that hold over every desk.
    ensures bad_words { (place : ℕ) → (result.status ≡ Status.BadWords place) ↔ IsBadPlace words.now place }
    ensures read_fault { (result.status ≡ Status.ReadFault) ↔ (0 < (D.input desk.new).faults) }
    ensures write_fault { (port : Port) → port ≢ Trouble → (result.status ≡ Status.WriteFault port) ↔ (0 < (D.ports desk.new port).faults) }
    ensures not_trouble { result.status ≢ Status.WriteFault Trouble }

    // The status of a told input: no other one of its kind comes, and it does come where nothing fails and memory is there.
    ensures outcome { (c : Meaning) (text : List ℕ) → IsInput words.now (D.held desk.old) c text → IsOutcome result.status → result.status ≡ status_of_input c text }
    ensures completes { (c : Meaning) (text : List ℕ) → IsInput words.now (D.held desk.old) c text → (D.input desk.new).faults ≡ 0 → HasNoFault (D.ports desk.new) →
        (result.status ≡ status_of_input c text) ⊎ (result.status ≡ Status.NoMemory) }

    // A demo reads nothing, and where nothing fails and memory is there it is done; where memory runs out, it has written nothing.
    ensures demo_completes { (size seed : ℕ) (plan : Plan) → Reads words.now (MakeDemo size seed plan) → HasNoFault (D.ports desk.new) →
        (result.status ≡ Status.Done) ⊎ (result.status ≡ Status.NoMemory) }
    ensures demo_reads_nothing { (size seed : ℕ) (plan : Plan) → Reads words.now (MakeDemo size seed plan) → D.input desk.new ≡ D.input desk.old }
    ensures demo_untouched { (size seed : ℕ) (plan : Plan) → Reads words.now (MakeDemo size seed plan) → result.status ≡ Status.NoMemory → KeepsPorts (D.ports desk.old) (D.ports desk.new) }

    // An audit: the status of told files, which comes where nothing fails and memory is there; what Done shows of them; and how much is read of them at most.
    ensures audit { (input : ℕ) → Reads words.now (AuditFiles input) → AuditEnds result.status (audit_status (nodes_told (D.held desk.old) words.now input) (tets_told (D.held desk.old) words.now input)) }
    ensures audit_completes { (input : ℕ) (s : Status) → Reads words.now (AuditFiles input) → audit_status (nodes_told (D.held desk.old) words.now input) (tets_told (D.held desk.old) words.now input) ≡ Some s → (D.input desk.new).faults ≡ 0 → HasNoFault (D.ports desk.new) →
        (result.status ≡ s) ⊎ (result.status ≡ Status.NoMemory) }
    ensures audit_sound { (input : ℕ) → Reads words.now (AuditFiles input) → result.status ≡ Status.Done → (nodes : NodesValue) (tets : List (List ℕ)) → AreRead (nodes_told (D.held desk.old) words.now input) (tets_told (D.held desk.old) words.now input) nodes tets → FitTogether nodes.places tets }
    ensures audit_breaks_off { (input : ℕ) → Reads words.now (AuditFiles input) → result.status ≡ Status.ReadFault →
        ((D.input desk.new).is_open ≡ false) ⊎ (PartlyTaken (nodes_told (D.held desk.old) words.now input) (D.input desk.new).left ⊎ PartlyTaken (tets_told (D.held desk.old) words.now input) (D.input desk.new).left) }

    // What is read of a told input.
    ensures read { (c : Meaning) (text : List ℕ) → IsInput words.now (D.held desk.old) c text → IsOutcome result.status → IsLeft text (outcome_for c text).taken (D.input desk.new).left }
    ensures read_whole { (port : Port) → result.status ≡ Status.WriteFault port → (c : Meaning) (text : List ℕ) → IsInput words.now (D.held desk.old) c text → Accepts (outcome_for c text) text (D.input desk.new).left }
    ensures breaks_off { result.status ≡ Status.ReadFault → (c : Meaning) (text : List ℕ) → IsInput words.now (D.held desk.old) c text →
        ((D.input desk.new).is_open ≡ false) ⊎ BreaksOff (outcome_for c text) text (D.input desk.new).left }

    // No output is used before a told input was read whole and is one that is not refused.
    ensures accepted { (c : Meaning) (text : List ℕ) → IsInput words.now (D.held desk.old) c text → KeepsPorts (D.ports desk.old) (D.ports desk.new) ⊎ Accepts (outcome_for c text) text (D.input desk.new).left }

    // What stands on the ports.
    ensures written { result.status ≡ Status.Done → (c : Meaning) → Reads words.now c → HasWritten D.ports (files_of c) (file_name words.now c) (IsTextFor (D.held desk.old) words.now c) desk.old desk.new }
    ensures ports { (c : Meaning) → Reads words.now c → PortsEnd D.ports result.status (files_of c) (file_name words.now c) (IsTextFor (D.held desk.old) words.now c) desk.old desk.new }
    ensures ports_left { LeavesPorts result.status → KeepsPorts (D.ports desk.old) (D.ports desk.new) }
    ensures report_open { (D.ports desk.new Report).is_open ≡ true }
    ensures trouble_open { (D.ports desk.new Trouble).is_open ≡ true }
    ensures trouble_part { AppendsPart (D.ports desk.old Trouble).text (D.ports desk.new Trouble).text (trouble_text result.status) }
    ensures trouble_whole { (D.ports desk.new Trouble).faults ≡ 0 → Appends (D.ports desk.old Trouble).text (D.ports desk.new Trouble).text (trouble_text result.status) }
    ensures quiet { result.status ≡ Status.Done → D.ports desk.new Trouble ≡ D.ports desk.old Trouble }

    // The mesh whose texts were written.
    ensures sound { result.status ≡ Status.Done → (c : Meaning) → Reads words.now c → (f : Field) → IsFieldFor (D.held desk.old) words.now c f → IsSoundFor c f }

    // The angles that its report tells.
    ensures bounds { result.status ≡ Status.Done → (c : Meaning) → Reads words.now c → (f : Field) → IsFieldFor (D.held desk.old) words.now c f → IsBoundedFor c f }

    // The neighbours of its tetrahedra, which are written with `faces=yes`.
    ensures neighbours { result.status ≡ Status.Done → (c : Meaning) → Reads words.now c → (f : Field) → IsFieldFor (D.held desk.old) words.now c f → AreJoinedFor c f }

    // How its states were made: a trace is there exactly where a command that makes a mesh is done.
    ensures trace { (c : Meaning) → Reads words.now c → TraceEnds result.status c (IsFieldFor (D.held desk.old) words.now c) result.trace }
    ensures untraced { (place : ℕ) → result.status ≡ Status.BadWords place → result.trace ≡ None }

    // Which files were opened.
    ensures tried { (c : Meaning) → Reads words.now c → GrowsAlong (all_names words.now c) (D.tried desk.old) (D.tried desk.new) }
    ensures all_tried { result.status ≡ Status.Done → (c : Meaning) → Reads words.now c → D.tried desk.new ≡ with_names (D.tried desk.old) (all_names words.now c) }
    ensures none_tried { (place : ℕ) → result.status ≡ Status.BadWords place → D.tried desk.new ≡ D.tried desk.old }
    ensures held { (n : List ℕ) → D.held desk.new n ≡ D.held desk.old n }
{
    let mut trace = None;
    let status = run(rt, alloc, words, desk, gate, &mut trace);
    tell(desk, status);
    Outcome { status, trace }
}
