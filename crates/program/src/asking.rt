ghost use Rattle.std.specs.Prelude.{◌≡◌};
ghost use Rattle.program.specs.Asked.{asked_by};

use st_base::Words;

/// What a list of words asks for.
#[derive(Clone, Copy, Debug, PartialEq, Eq)]
pub enum Asked {
    /// The text of `--help`.
    Help,
    /// The text of `--version`.
    Version,
    /// A command, or what is none.
    Command,
}

/// What the words ask for: help or the version where they are that one word, and a command everywhere else.
pub fn read_asked(words: &Words) -> Asked
    ensures { result ≡ asked_by words.now }
{
    if words.len() != 1 {
        return Asked::Command;
    }
    let word = words.word(0);
    if word == b"--help".as_slice() {
        return Asked::Help;
    }
    if word == b"--version".as_slice() {
        return Asked::Version;
    }
    Asked::Command
}
