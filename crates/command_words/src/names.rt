ghost use Rattle.std.specs.Prelude.{◌≡◌};
ghost use Rattle.command_line.specs.Grammar.{name_text as name_text_lem};

use command_line::Name;

/// All names of named words, in the order of their numbers.
pub const NAMES: [Name; 13] = [
    Name::Level,
    Name::Below,
    Name::Step,
    Name::Long,
    Name::Short,
    Name::Workers,
    Name::Slab,
    Name::First,
    Name::Units,
    Name::Faces,
    Name::At,
    Name::Size,
    Name::Seed,
];

/// The text with which a named word begins.
pub fn name_text(name: Name) -> &'static [u8]
    ensures { result.now ≡ name_text_lem name }
{
    match name {
        Name::Level => b"level=",
        Name::Below => b"below=",
        Name::Step => b"step=",
        Name::Long => b"long=",
        Name::Short => b"short=",
        Name::Workers => b"workers=",
        Name::Slab => b"slab=",
        Name::First => b"first=",
        Name::Units => b"units=",
        Name::Faces => b"faces=",
        Name::At => b"at=",
        Name::Size => b"size=",
        Name::Seed => b"seed=",
    }
}
