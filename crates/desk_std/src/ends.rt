ghost use Rattle.std.specs.Prelude.{◌≡◌, ◌<◌, ◌≤◌, length, true, false, None, Some, is_some, OnOk, OnErr, IfOk, IsOk, IsErr};
ghost use Rattle.std.specs.Io.{ReadsAtMost, WritesAtMost};
ghost use Rattle.std.specs.Io.KnownBytes.{ReadConsumes, WriteAppends};
ghost use Rattle.std.specs.Option.{option_and_then};
ghost use Rattle.st_base.specs.Causes.{HasCause, Rose};

use crate::calls::{flush, read_some, write_some};
use st_base::Failed;
use std::io::{Read, Write};

/// A file or a stream, where it is open, and how many calls on it failed.
#[derive(Drop)]
pub struct End<F: Drop> {
    pub file: Option<F>,
    pub faults: u64,
}

impl<F: Drop> End<F> {
    /// With no fault yet.
    pub fn new(file: Option<F>) -> End<F>
        ensures { result ≡ record { file = file; faults = 0 } }
    {
        End { file, faults: 0 }
    }

    /// Counts a failure.
    fn counted<T: Drop>(&mut self, answer: Result<T, Failed>) -> Result<T, Failed>
        ensures answer { result ≡ answer }
        ensures file { self.new.file ≡ self.old.file }
        ensures cause { HasCause self.old.faults self.new.faults result }
    {
        if answer.is_err() {
            self.faults = self.faults.saturating_add(1);
        }
        answer
    }

    /// Takes the file that was opened.
    pub fn open(&mut self, opened: Result<F, Failed>) -> Result<(), Failed>
        ensures opened { IfOk opened (λ file. (self.new.file ≡ Some file) × IsOk result) }
        ensures refused { OnErr opened (IsErr result) }
        ensures as_before { OnErr result (self.new.file ≡ self.old.file) }
        ensures cause { HasCause self.old.faults self.new.faults result }
    {
        match opened {
            Ok(file) => {
                self.file = Some(file);
                Ok(())
            }
            Err(failed) => self.counted(Err(failed)),
        }
    }
}

impl<F: Read + Drop> End<F> {
    /// Reads some bytes.
    pub fn read(&mut self, into: &mut [u8]) -> Result<usize, Failed>
        requires { is_some self.old.file ≡ true }
        ensures bound { ReadsAtMost result into.new }
        ensures bytes { ReadConsumes (option_and_then F.remaining self.old.file)
            (option_and_then F.remaining self.new.file) result into.new }
        ensures is_open { is_some self.new.file ≡ true }
        ensures cause { HasCause self.old.faults self.new.faults result }
    {
        let Some(file) = &mut self.file else {
            unreachable!()
        };
        let answer = read_some(file, into);
        self.counted(answer)
    }
}

impl<F: Write + Drop> End<F> {
    /// Writes some of the bytes, at least one where there are any.
    pub fn write(&mut self, bytes: &[u8]) -> Result<usize, Failed>
        requires { is_some self.old.file ≡ true }
        ensures bound { WritesAtMost result bytes.now }
        ensures some { 0 < length bytes.now → IfOk result (λ n. 0 < n) }
        ensures bytes { WriteAppends (option_and_then F.contents self.old.file)
            (option_and_then F.contents self.new.file) result bytes.now }
        ensures is_open { is_some self.new.file ≡ true }
        ensures cause { HasCause self.old.faults self.new.faults result }
    {
        let Some(file) = &mut self.file else {
            unreachable!()
        };
        let answer = write_some(file, bytes);
        self.counted(answer)
    }

    /// Flushes it and lets it go, which closes a file.
    pub fn finish(&mut self) -> Result<(), Failed>
        requires { is_some self.old.file ≡ true }
        ensures closed { is_some self.new.file ≡ false }
        ensures cause { HasCause self.old.faults self.new.faults result }
    {
        let Some(stream) = &mut self.file else {
            unreachable!()
        };
        let answer = flush(stream);
        self.file = None;
        self.counted(answer)
    }
}
