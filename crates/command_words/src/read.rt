ghost use Rattle.std.specs.Prelude.{◌≡◌, ◌<◌, ◌≤◌, List, ℕ, ℤ, length, IfOk, IfErr, IfSome, IfNone, unwrap_or};
ghost use Rattle.command_line.specs.Grammar.{Reads, IsBadPlace, IsPlan, Command as Meaning};
ghost use Rattle.command_line.specs.declared.Verb.TheVariants as verb;
ghost use Rattle.command_words.specs.Commands.{is_name as is_name_lem, AreNames, IsBadName, IsSourceWithin, command_seen, source_of, step_of, mesh_of, probe_of, plan_of, IsNear, meaning_of};

use crate::command::Command;
use crate::settings::{Seen, read_settings};
use crate::verbs::{file_count, verb_of};
use command_line::Verb;
use st_base::Words;

// Whether word `n` can be a file's name.
fn is_name(words: &Words, n: usize) -> bool
    ensures { result ≡ is_name_lem words.now n }
{
    n < words.len() && !words.word(n).is_empty()
}

// The first of so many words behind the first that cannot be a file's name.
fn bad_name(words: &Words, count: usize) -> Option<usize>
    ensures bad { IfSome result (λ place. IsBadName words.now count place) }
    ensures none { IfNone result (AreNames words.now count) }
{
    for i in 0..count {
        if !is_name(words, i + 1) {
            return Some(i + 1);
        }
    }
    None
}

fn mesh_by(seen: &Seen) -> Option<Command>
    requires long { unwrap_or seen.now.long 1023 ≤ 1023 }
    requires short { unwrap_or seen.now.short 1687 ≤ 2047 }
    ensures { result ≡ command_seen verb.Mesh seen.now }
{
    Some(Command::Mesh {
        input: 1,
        output: 2,
        level: seen.level?,
        below: seen.below,
        step: seen.step.unwrap_or(1),
        shares: seen.shares(),
        plan: seen.plan(),
        numbering: seen.first.unwrap_or(0),
        world: seen.world.unwrap_or(false),
        faces: seen.faces,
    })
}

fn stream_by(seen: &Seen) -> Option<Command>
    requires long { unwrap_or seen.now.long 1023 ≤ 1023 }
    requires short { unwrap_or seen.now.short 1687 ≤ 2047 }
    ensures { result ≡ command_seen verb.Stream seen.now }
{
    Some(Command::Stream {
        input: 1,
        output: 2,
        level: seen.level?,
        below: seen.below,
        step: seen.step.unwrap_or(1),
        shares: seen.shares(),
        plan: seen.plan(),
        numbering: seen.first.unwrap_or(0),
        world: seen.world.unwrap_or(false),
    })
}

// The command of a verb, by what its named words set. None: a word that must be there is missing.
fn command_by(verb: Verb, seen: &Seen) -> Option<Command>
    requires long { unwrap_or seen.now.long 1023 ≤ 1023 }
    requires short { unwrap_or seen.now.short 1687 ≤ 2047 }
    ensures { result ≡ command_seen verb seen.now }
{
    let below = seen.below;
    let step = seen.step.unwrap_or(1);
    match verb {
        Verb::Count => Some(Command::Count {
            input: 1,
            level: seen.level?,
            below,
            step,
        }),
        Verb::Mesh => mesh_by(seen),
        Verb::Stream => stream_by(seen),
        Verb::Audit => Some(Command::Audit { input: 1 }),
        Verb::Probe => Some(Command::Probe {
            input: 1,
            level: seen.level?,
            below,
            step,
            shares: seen.shares(),
            at: seen.at?,
        }),
        Verb::Demo => Some(Command::Demo {
            size: seen.size?,
            seed: seen.seed?,
            plan: seen.plan(),
        }),
    }
}

/// The command that the words are, or the place of bad words: the number of the first word with
/// which no command goes on, or of words where all of them begin one.
///
/// ```rust
/// words.push(b"count")?;
/// words.push(b"scan.mha")?;
/// assert_eq!(rt; read_words(&words).err(), Some(2));
/// ```
pub fn read_words(words: &Words) -> Result<Command, u64>
    ensures command { IfOk result (λ c. Reads words.now (meaning_of c)) }
    ensures source { IfOk result (λ c. IsSourceWithin (source_of c) (length words.now)) }
    ensures output { IfOk result (λ c. IfSome (mesh_of c) (λ m. m.output < length words.now)) }
    ensures step { IfOk result (λ c. (1 ≤ step_of c) × (step_of c ≤ 64)) }
    ensures plan { IfOk result (λ c. IfSome (plan_of c) IsPlan) }
    ensures numbering { IfOk result (λ c. IfSome (mesh_of c) (λ m. m.numbering ≤ 1)) }
    ensures point { IfOk result (λ c. IfSome (probe_of c) (λ p. IsNear p.at)) }
    ensures place { IfErr result (λ place. IsBadPlace words.now place) }
{
    let Some(verb) = verb_of(words) else {
        return Err(0);
    };
    let files = file_count(verb);
    if let Some(place) = bad_name(words, files) {
        return Err(place as u64);
    }
    let seen = match read_settings(verb, words, files + 1) {
        Ok(seen) => seen,
        Err(place) => return Err(place),
    };
    match command_by(verb, &seen) {
        Some(command) => Ok(command),
        None => Err(words.len() as u64),
    }
}

/// A list of words reads as one command at most, and words are bad at one place at most.
pub fn words_read_once()
    ensures command { (words : List (List ℕ)) (c d : Meaning) → Reads words c → Reads words d → c ≡ d }
    ensures place { (words : List (List ℕ)) (m n : ℕ) → IsBadPlace words m → IsBadPlace words n → m ≡ n }
{}
