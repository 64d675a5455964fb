ghost use Rattle.std.specs.Prelude.{◌≡◌, ℕ, List, is_some, Option, None};
ghost use Rattle.st_base.specs.Desk.{IsStart};
ghost use Rattle.st_base.specs.declared.Port.{Port};
ghost use Rattle.desk_std.specs.Meanings.{by_port, untold_input, untold_port};

use crate::calls::{open_input, open_output};
use crate::ends::End;
use crate::system::FileSystem;
use st_base::{Desk, Failed, Port};
use std::io::Write;

/// The real outside: files, a writer for Report, and one for Trouble.
///
/// A call that is interrupted is made again, at most 1,000 times, and then fails. A write that takes
/// none of its bytes fails, and so does a name that is not UTF-8. An output file is made or emptied
/// when it is opened, and flushed and closed when its port is finished, which fails where it can't be
/// flushed. Each failure is counted, for the input or for its port. No bytes, texts or names are told.
#[derive(Drop)]
pub struct StdDesk<F: FileSystem + Drop, O: Write + Drop, E: Write + Drop> {
    files: F,
    input: End<F::File>,
    node: End<F::File>,
    ele: End<F::File>,
    report: End<O>,
    trouble: End<E>,
    face: End<F::File>,
    neigh: End<F::File>,
}

impl<F: FileSystem + Drop, O: Write + Drop, E: Write + Drop> StdDesk<F, O, E> {
    /// A desk on which nothing was done yet.
    ///
    /// ```
    /// let files = System::new(&rt);
    /// let mut desk = StdDesk::new(files, rt.stdout(), rt.stderr());
    /// let outcome = stuff(&rt, alloc, &words, &mut desk, &OpenGate);
    /// ```
    pub fn new(files: F, report: O, trouble: E) -> Self
        ensures { IsStart (⟦<StdDesk<F, O, E> as Desk>⟧.input result)
            (⟦<StdDesk<F, O, E> as Desk>⟧.ports result) (⟦<StdDesk<F, O, E> as Desk>⟧.tried result) }
    {
        StdDesk {
            files,
            input: End::new(None),
            node: End::new(None),
            ele: End::new(None),
            report: End::new(Some(report)),
            trouble: End::new(Some(trouble)),
            face: End::new(None),
            neigh: End::new(None),
        }
    }
}

impl<F: FileSystem + Drop, O: Write + Drop, E: Write + Drop> Desk for StdDesk<F, O, E> {
    ghost input = { λ desk. untold_input (is_some desk.input.file) desk.input.faults };

    ghost ports = { λ desk. by_port
        (untold_port (is_some desk.node.file) desk.node.faults)
        (untold_port (is_some desk.ele.file) desk.ele.faults)
        (untold_port (is_some desk.report.file) desk.report.faults)
        (untold_port (is_some desk.trouble.file) desk.trouble.faults)
        (untold_port (is_some desk.face.file) desk.face.faults)
        (untold_port (is_some desk.neigh.file) desk.neigh.faults) };

    ghost tried = { λ _. None };

    ghost held = { λ _ _. None };

    fn open_input(&mut self, name: &[u8]) -> Result<(), Failed> {
        let opened = open_input(&self.files, name);
        self.input.open(opened)
    }

    fn read(&mut self, into: &mut [u8]) -> Result<usize, Failed> {
        self.input.read(into)
    }

    fn open_output(&mut self, port: Port, name: &[u8]) -> Result<(), Failed> {
        let opened = open_output(&self.files, name);
        match port {
            Port::Node => self.node.open(opened),
            Port::Ele => self.ele.open(opened),
            Port::Face => self.face.open(opened),
            Port::Neigh => self.neigh.open(opened),
            Port::Report | Port::Trouble => unreachable!(),
        }
    }

    fn write(&mut self, port: Port, bytes: &[u8]) -> Result<usize, Failed> {
        match port {
            Port::Node => self.node.write(bytes),
            Port::Ele => self.ele.write(bytes),
            Port::Report => self.report.write(bytes),
            Port::Trouble => self.trouble.write(bytes),
            Port::Face => self.face.write(bytes),
            Port::Neigh => self.neigh.write(bytes),
        }
    }

    fn finish(&mut self, port: Port) -> Result<(), Failed> {
        match port {
            Port::Node => self.node.finish(),
            Port::Ele => self.ele.finish(),
            Port::Report => self.report.finish(),
            Port::Trouble => self.trouble.finish(),
            Port::Face => self.face.finish(),
            Port::Neigh => self.neigh.finish(),
        }
    }
}
