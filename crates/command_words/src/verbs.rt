ghost use Rattle.std.specs.Prelude.{◌≡◌, IfSome, IfNone};
ghost use Rattle.command_line.specs.declared.Verb.{Verb as VerbValue};
ghost use Rattle.command_line.specs.Grammar.{file_count as file_count_lem};
ghost use Rattle.command_words.specs.Commands.{is_word as is_word_lem, HasVerb};
ghost use Rattle.command_words.specs.Settings.{is_known as is_known_lem};

use command_line::{Name, Verb};
use st_base::Words;

// Whether word `n` is this text.
fn is_word(words: &Words, n: usize, text: &[u8]) -> bool
    ensures { result ≡ is_word_lem words.now n text.now }
{
    n < words.len() && words.word(n) == text
}

/// The command whose word is the first one.
pub fn verb_of(words: &Words) -> Option<Verb>
    ensures text { IfSome result (λ verb. HasVerb words.now verb) }
    ensures none { IfNone result ((verb : VerbValue) → HasVerb words.now verb → ⊥) }
{
    if is_word(words, 0, b"count") {
        return Some(Verb::Count);
    }
    if is_word(words, 0, b"mesh") {
        return Some(Verb::Mesh);
    }
    if is_word(words, 0, b"demo") {
        return Some(Verb::Demo);
    }
    if is_word(words, 0, b"audit") {
        return Some(Verb::Audit);
    }
    if is_word(words, 0, b"probe") {
        return Some(Verb::Probe);
    }
    if is_word(words, 0, b"stream") {
        return Some(Verb::Stream);
    }
    None
}

/// How many file names follow a command's word.
pub fn file_count(verb: Verb) -> usize
    ensures { result ≡ file_count_lem verb }
{
    match verb {
        Verb::Count | Verb::Audit | Verb::Probe => 1,
        Verb::Mesh | Verb::Stream => 2,
        Verb::Demo => 0,
    }
}

/// Whether a command has the name.
pub fn is_known(verb: Verb, name: Name) -> bool
    ensures { result ≡ is_known_lem verb name }
{
    match verb {
        Verb::Count => match name {
            Name::Level | Name::Below | Name::Step => true,
            _ => false,
        },
        Verb::Mesh => match name {
            Name::At | Name::Size | Name::Seed => false,
            _ => true,
        },
        Verb::Stream => match name {
            Name::Faces | Name::At | Name::Size | Name::Seed => false,
            _ => true,
        },
        Verb::Probe => match name {
            Name::Level | Name::At | Name::Below | Name::Step | Name::Long | Name::Short => true,
            _ => false,
        },
        Verb::Audit => false,
        Verb::Demo => match name {
            Name::Size | Name::Seed | Name::Workers | Name::Slab => true,
            _ => false,
        },
    }
}
