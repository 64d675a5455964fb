ghost use Rattle.std.specs.Prelude.{◌≡◌, ◌≢◌, ◌⊎◌, ℕ, List, [], false, Some};
ghost use Rattle.definitions.specs.Values.{Field};
ghost use Rattle.formats.specs.Faults.{trouble_text};
ghost use Rattle.command_line.specs.Grammar.{Command, Meshing, meshing_of, AuditFiles, MakeDemo, Reads, IsBadPlace};
ghost use Rattle.command_line.specs.declared.Plan.{Plan};
ghost use Rattle.file_audit.specs.Status.{audit_status, AreRead};
ghost use Rattle.mesh_files.specs.Files.{Nodes};
ghost use Rattle.stuff.specs.Inputs.{told_input};
ghost use Rattle.stuff.specs.Outputs.{nodes_told, status_of_input, tets_told};
ghost use Rattle.stuff.specs.Traces.{IsFieldFor};
ghost use Rattle.meshed.specs.Answers.{AreShort, AuditsAsSound, Comes, Judges, LacksMemory, Makes};
ghost use Rattle.meshed.specs.Files.{held_in};

use crate::answer::{Answer, File};
use crate::desk::{desk_of, taken};
use st_base::{OpenGate, Status, Words};
use std::alloc::Global;
use std::thread::Threads;
use stuff::stuff;

/// Carries out the command that the words are, on files: what the program does, where its outside is in memory.
///
/// It is called by nothing else, and says in one place what `stuff` promises of a user's files. Where memory is
/// wanting it answers so, by NoMemory, ReadFault or WriteFault.
pub fn meshed<R: Threads + Sync>(rt: &R, alloc: Global, words: &Words, files: &[File]) -> Answer
    // The status: of words that are no command, of a command and its input, and of a demo.
    ensures bad_words { (place : ℕ) → IsBadPlace words.now place → Comes result.status (Status.BadWords place) }
    ensures told { (c : Command) (text : List ℕ) → Reads words.now c → told_input (held_in files.now) words.now c ≡ Some text → Comes result.status (status_of_input c text) }
    ensures demo { (size seed : ℕ) (plan : Plan) → Reads words.now (MakeDemo size seed plan) → Comes result.status Status.Done }

    // An audit of files that are among these: its status, and what Done shows of them.
    ensures audit { (input : ℕ) (s : Status) → Reads words.now (AuditFiles input) → audit_status (nodes_told (held_in files.now) words.now input) (tets_told (held_in files.now) words.now input) ≡ Some s → Comes result.status s }
    ensures judged { result.status ≡ Status.Done → (input : ℕ) → Reads words.now (AuditFiles input) → (nodes : Nodes) (tets : List (List ℕ)) → AreRead (nodes_told (held_in files.now) words.now input) (tets_told (held_in files.now) words.now input) nodes tets → Judges nodes tets result }

    // What is made of the command's field.
    ensures made { result.status ≡ Status.Done → (c : Command) (f : Field) → Reads words.now c → IsFieldFor (held_in files.now) words.now c f → Makes (held_in files.now) words.now c f result }

    // What an audit of these files says, of a mesh in index units: they are sound.
    ensures audited { result.status ≡ Status.Done → (c : Command) (m : Meshing) (f : Field) → Reads words.now c → meshing_of c ≡ Some m → m.world ≡ false → IsFieldFor (held_in files.now) words.now c f → AreShort result.files.items → AuditsAsSound words.now m result.files.items }

    // Nothing is made where it is not done.
    ensures no_files { result.status ≢ Status.Done → result.files.items ≡ [] }
    ensures no_report { result.status ≢ Status.Done → result.report.items ≡ [] }

    // The line that tells why.
    ensures trouble { (result.trouble.items ≡ trouble_text result.status) ⊎ LacksMemory result.status }
{
    let Ok(mut desk) = desk_of(alloc, files) else {
        return Answer::bare(alloc, Status::NoMemory);
    };
    let outcome = stuff(rt, alloc, words, &mut desk, &OpenGate);
    match taken(alloc, outcome.status, &desk) {
        Some(answer) => answer,
        None => Answer::bare(alloc, Status::NoMemory),
    }
}
