ghost use Rattle.std.specs.Prelude.{◌≡◌, ◌<◌, length, true, Ok, IfOk, IsErr, MatchOption, MatchResult};
ghost use Rattle.std.specs.Fs.{new_options, with_read, with_write, with_create, with_truncate};
ghost use Rattle.std.specs.Io.{ReadsAtMost, WritesAtMost};
ghost use Rattle.std.specs.Io.KnownBytes.{ReadConsumes, WriteAppends};

use crate::system::FileSystem;
use st_base::Failed;
use std::fs::OpenOptions;
use std::io::{self, ErrorKind, Read, Write};
use std::str;

/// How often a call is made that is interrupted each time: once, and 1,000 times again.
const TRIES: u32 = 1001;

/// What a call came to, or `None` where it was interrupted.
fn settled<T: Drop>(answer: io::Result<T>) -> Option<Result<T, Failed>>
    ensures { MatchOption result (IsErr answer) (λ done. MatchResult done (λ value. answer ≡ Ok value) (λ _. IsErr answer)) }
{
    match answer {
        Ok(value) => Some(Ok(value)),
        Err(error) if error.kind() == ErrorKind::Interrupted => None,
        Err(_) => Some(Err(Failed)),
    }
}

/// How an input is opened.
fn for_input() -> OpenOptions
    ensures { result ≡ with_read new_options true }
{
    let mut how = OpenOptions::new();
    how.read(true);
    how
}

/// How an output is opened: it is made, or emptied where it is there.
fn for_output() -> OpenOptions
    ensures { result ≡ with_truncate (with_create (with_write new_options true) true) true }
{
    let mut how = OpenOptions::new();
    how.write(true).create(true).truncate(true);
    how
}

/// Opens the file of this name in this way. A name that is not UTF-8 is refused.
fn open_file<F: FileSystem>(files: &F, how: &OpenOptions, name: &[u8]) -> Result<F::File, Failed>
    ensures { IfOk result (λ file. F.is_opened file how.now name.now) }
{
    let Ok(path) = str::from_utf8(name) else {
        return Err(Failed);
    };
    for _ in 0..TRIES {
        if let Some(done) = settled(files.open(how, path)) {
            return done;
        }
    }
    Err(Failed)
}

/// Opens the file of this name to read it.
pub fn open_input<F: FileSystem>(files: &F, name: &[u8]) -> Result<F::File, Failed>
    ensures { IfOk result (λ file. F.is_opened file (with_read new_options true) name.now) }
{
    open_file(files, &for_input(), name)
}

/// Makes the file of this name, or empties it, to write it.
pub fn open_output<F: FileSystem>(files: &F, name: &[u8]) -> Result<F::File, Failed>
    ensures { IfOk result (λ file. F.is_opened file (with_truncate (with_create (with_write new_options true) true) true) name.now) }
{
    open_file(files, &for_output(), name)
}

/// One read.
pub fn read_some<F: Read>(file: &mut F, into: &mut [u8]) -> Result<usize, Failed>
    ensures bound { ReadsAtMost result into.new }
    ensures bytes { ReadConsumes (F.remaining file.old) (F.remaining file.new) result into.new }
{
    for _ in 0..TRIES {
        if let Some(done) = settled(file.read(into)) {
            return done;
        }
    }
    Err(Failed)
}

/// A write that took none of the bytes that there are has failed.
fn some_taken(done: Result<usize, Failed>, bytes: &[u8]) -> Result<usize, Failed>
    ensures some { 0 < length bytes.now → IfOk result (λ n. 0 < n) }
    ensures taken { MatchResult result (λ n. done ≡ Ok n) (λ _. IfOk done (λ n. n ≡ 0)) }
{
    match done {
        Ok(0) if !bytes.is_empty() => Err(Failed),
        _ => done,
    }
}

/// One write, which fails where it takes none of the bytes that there are.
pub fn write_some<F: Write>(file: &mut F, bytes: &[u8]) -> Result<usize, Failed>
    ensures bound { WritesAtMost result bytes.now }
    ensures some { 0 < length bytes.now → IfOk result (λ n. 0 < n) }
    ensures bytes { WriteAppends (F.contents file.old) (F.contents file.new) result bytes.now }
{
    for _ in 0..TRIES {
        if let Some(done) = settled(file.write(bytes)) {
            return some_taken(done, bytes);
        }
    }
    Err(Failed)
}

/// Passes on what a writer holds back.
pub fn flush<F: Write>(file: &mut F) -> Result<(), Failed> {
    for _ in 0..TRIES {
        if let Some(done) = settled(file.flush()) {
            return done;
        }
    }
    Err(Failed)
}
