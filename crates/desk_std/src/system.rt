ghost use Rattle.std.specs.Prelude.{ℕ, List, IfOk, ⊤};
ghost use Rattle.std.specs.declared.fs.options.OpenOptions.{OpenOptions as Options};

use std::fs::{File, OpenOptions};
use std::io::{self, Read, Write};
use std::rt::Files;

/// Files that are opened under a name.
pub trait FileSystem {
    /// An open file.
    type File: Read + Write + Drop;

    /// The file was opened in this way, under this name.
    ghost is_opened: { Self.File → Options → List ℕ → Type 0 };

    /// Opens the file of this name.
    fn open(&self, how: &OpenOptions, name: &str) -> io::Result<Self::File>
        ensures opened { IfOk result (λ file. is_opened file how.now name.now) };
}

/// The files of the system.
#[derive(Drop)]
pub struct System<R: Files<File = File> + Drop> {
    files: R,
}

impl<R: Files<File = File> + Drop> System<R> {
    /// The files that the runtime gives.
    pub fn new(files: R) -> Self {
        System { files }
    }
}

impl<R: Files<File = File> + Drop> FileSystem for System<R> {
    type File = File;

    ghost is_opened = { λ _ _ _. ⊤ };

    fn open(&self, how: &OpenOptions, name: &str) -> io::Result<File> {
        how.open(&self.files, name)
    }
}
