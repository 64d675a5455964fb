//! Words of commands: where they are bad, and what they say.

use crate::rows::{field, number as number_of};
use command_words::{Command, Source, halves, level, number, read_words};
use st_base::{NoMemory, Words};
use std::alloc::{AllocError, Global};

// Words, and the place at which they are bad. `_` is the empty word.
const BAD_WORDS: &str = " | 0
meshes a | 0
Mesh a out level=1 | 0
count | 1
count _ level=1 | 1
count a | 2
count a long=3 | 2
count a level=1 step=65 | 3
mesh a | 2
mesh _ _ | 1
mesh a _ level=1 | 2
mesh= a b level=1 | 0
mesh a level=1 | 3
mesh a out b level=1 | 3
mesh a out level=1 level=2 | 4
mesh a out level=1 workers=0 | 4
mesh a out level=1 workers=65 | 4
mesh a out level=1 slab=04 | 4
mesh a out level=1 long=1024 | 4
mesh a out level=1 short=2048 | 4
mesh a out level=1 below=no | 4
mesh a out level=0.5 first=2 | 4
mesh a out level=0.5 first=01 | 4
mesh a out level=0.5 first=-1 | 4
mesh a out first=1 first=1 level=0.5 | 4
mesh a out level=0.5 units=mm | 4
mesh a out level=0.5 units= | 4
mesh a out level=0.5 units=world first=0 units=world | 6
mesh a out units=index first=1 | 5
mesh a out short=2047 | 4
mesh a b slab=65 | 3
mesh a out long=1023 short=2047 slab=9 level=1e3 | 6
mesh a out level=3750510981.5 long=0 a | 5
count slab=65 a level=-0.5 | 2
count a level=0.5 first=1 | 3
count a level=0.5 units=index | 3
demo size=129 seed=7 | 1
demo seed=7 | 2
demo size=1 seed=7 level=1 | 3
demo size=1 seed=18446744073709551616 | 2
demo size=2 seed=7 units=world | 3
demo size=2 first=0 seed=7 | 2
demo size=2 seed=7 faces=yes | 3
mesh a out level=1 faces=no | 4
mesh a out level=1 faces= | 4
mesh a out faces=yes level=1 faces=yes | 5
mesh a out level=1 at=0,0,0 | 4
count a level=1 faces=yes | 3
count a at=0,0,0 | 2
stream | 1
stream a | 2
stream a out | 3
stream a _ level=1 | 2
stream a out level=1 faces=yes | 4
stream a out level=1 at=0,0,0 | 4
stream a out level=1 workers=65 | 4
audit | 1
audit _ | 1
audit a b | 2
audit a level=1 | 2
audit a faces=yes | 2
probe a | 2
probe a level=1 | 3
probe a at=0,0,0 | 3
probe a level=1 at=0,0 | 3
probe a level=1 at=0,0,0,0 | 3
probe a level=1 at=0,,0 | 3
probe a level=1 at= | 3
probe a level=1 at=0,01,0 | 3
probe a level=1 at=0,+1,0 | 3
probe a level=1 at=0,0.5,0 | 3
probe a level=1 at=0,0,1099511627776 | 3
probe a level=1 at=-1099511627776,0,0 | 3
probe a at=0,0,0 at=0,0,0 level=1 | 3
probe a level=1 at=0,0,0 workers=1 | 4
probe a level=1 at=0,0,0 first=1 | 4";

// Words, and what they say.
const COMMANDS: &str =
    "mesh a out level=1 | input 1, twice 2, below false, step 1, output 2, long 1023, short 1687, workers 4, slab 4, first 0, world false, faces false, streamed false
mesh a out level=1 long=0 short=0 workers=64 slab=64 step=64 below=yes | input 1, twice 2, below true, step 64, output 2, long 0, short 0, workers 64, slab 64, first 0, world false, faces false, streamed false
mesh level=2 step=3 slab=1 workers=64 short=2047 long=1023 level=10.0 | input 1, twice 20, below false, step 1, output 2, long 1023, short 2047, workers 64, slab 1, first 0, world false, faces false, streamed false
mesh a out level=1 first=1 units=world | input 1, twice 2, below false, step 1, output 2, long 1023, short 1687, workers 4, slab 4, first 1, world true, faces false, streamed false
mesh a out units=world workers=2 first=1 level=1 slab=3 | input 1, twice 2, below false, step 1, output 2, long 1023, short 1687, workers 2, slab 3, first 1, world true, faces false, streamed false
mesh a out first=0 level=-1 units=index faces=yes | input 1, twice -2, below false, step 1, output 2, long 1023, short 1687, workers 4, slab 4, first 0, world false, faces true, streamed false
stream a out first=1 slab=1 workers=2 level=-1 units=world long=7 short=9 step=3 | input 1, twice -2, below false, step 3, output 2, long 7, short 9, workers 2, slab 1, first 1, world true, faces false, streamed true
count a step=2 level=199.5 | input 1, twice 399, below false, step 2
audit a | files 1, twice 0, below false, step 1
probe a level=0.5 at=1,-2,1099511627775 | input 1, twice 1, below false, step 1, long 1023, short 1687, at 1 -2 1099511627775
probe a at=-0,-1099511627775,0 short=0 step=64 level=2 long=5 below=yes | input 1, twice 4, below true, step 64, long 5, short 0, at 0 -1099511627775 0
demo seed=7 slab=1 size=128 | size 128, seed 7, twice 399, below false, step 1";

// What is read, the word, and the number that it is.
const NUMBERS: &str = "number | 18446744073709551615 | 18446744073709551615
halves | 4294967295.5 | 8589934591
level | -0 | 0";

// The words that blanks part.
fn words_of(alloc: Global, text: &str) -> Result<Words, NoMemory> {
    let mut words = Words::new(alloc);
    for word in text.split_whitespace() {
        words.push(if word == "_" { b"" } else { word.as_bytes() })?;
    }
    Ok(words)
}

#[test]
fn places_of_bad_words(rt: HostRuntime) {
    for row in BAD_WORDS.lines() {
        let (given, place) = field(row);
        let words = words_of(rt.alloc(), given).expect(&rt, "memory");
        let found = read_words(&words).err();
        assert_eq!(rt; found.map(|n| n as u64), Some(number_of(place)), "of {row}");
    }
}

// What a command says.
fn told(alloc: Global, command: &Command) -> Result<String, AllocError> {
    let source = match command.source() {
        Source::File { input } => format!(in alloc; "input {input}")?,
        Source::Phantom { size, seed } => format!(in alloc; "size {size}, seed {seed}")?,
        Source::Finished { input } => format!(in alloc; "files {input}")?,
    };
    let mesh = match command.mesh() {
        None => String::new(alloc),
        Some(mesh) => format!(in alloc;
            ", output {}, long {}, short {}, workers {}, slab {}, first {}, world {}, faces {}, streamed {}",
            mesh.output,
            mesh.shares.share(true),
            mesh.shares.share(false),
            mesh.plan.workers,
            mesh.plan.slab,
            mesh.numbering,
            mesh.world,
            mesh.faces,
            mesh.streamed
        )?,
    };
    let probe = match command.probe() {
        None => String::new(alloc),
        Some(probe) => format!(in alloc;
            ", long {}, short {}, at {} {} {}",
            probe.shares.share(true),
            probe.shares.share(false),
            probe.at.x,
            probe.at.y,
            probe.at.z
        )?,
    };
    format!(in alloc;
        "{source}, twice {}, below {}, step {}{mesh}{probe}",
        command.level().twice(),
        command.below(),
        command.step()
    )
}

#[test]
fn commands(rt: HostRuntime) {
    for row in COMMANDS.lines() {
        let (given, wanted) = field(row);
        let words = words_of(rt.alloc(), given).expect(&rt, "memory");
        let command = read_words(&words).ok().expect(&rt, "a command");
        let text = told(rt.alloc(), &command).expect(&rt, "memory");
        assert_eq!(rt; text.as_str(), wanted, "of {row}");
    }
}

#[test]
fn numbers(rt: HostRuntime) {
    for row in NUMBERS.lines() {
        let (what, rest) = field(row);
        let (word, wanted) = field(rest);
        let found = match what {
            "number" => number(word.as_bytes()),
            "halves" => halves(word.as_bytes()),
            _ => level(word.as_bytes()).map(|level| level.twice().unsigned_abs()),
        };
        assert_eq!(rt; found, Some(number_of(wanted)), "of {row}");
    }
}
