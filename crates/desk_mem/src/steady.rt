ghost use Rattle.std.specs.Prelude.{◌≡◌, ◌≢◌, ◌+◌, ◌-◌, ◌^◌, ◌<◌, ◌≤◌, List, ℕ, min, true, false, Some, None, vec_len};
ghost use Rattle.st_base.specs.Desk.{IsStart};
ghost use Rattle.st_base.specs.declared.Port.{Port};

use crate::input::move_bytes;
use st_base::{Desk, Failed, Port};

/// A port of which only the length of its text is kept.
#[derive(Clone, Copy)]
pub struct Length {
    pub is_open: bool,
    /// Stays at 2^64 - 1 once there.
    pub written: u64,
}

impl Length {
    fn new(is_open: bool) -> Length
        ensures { result ≡ record { is_open = is_open; written = 0 } }
    {
        Length {
            is_open,
            written: 0,
        }
    }

    fn add(&mut self, count: usize)
        ensures is_open { self.new.is_open ≡ self.old.is_open }
        ensures written { self.new.written ≡ min (self.old.written + count) (2 ^ 64 - 1) }
    {
        self.written = self.written.saturating_add(count as u64);
    }
}

/// A desk that gives the same bytes under every name, keeps only the length of each port's text,
/// and never fails. It doesn't tell the names with which files were opened.
///
/// The next byte is one of the bytes, or stands at their end.
#[derive(Drop)]
pub struct SteadyDesk {
    bytes: Vec<u8>,
    at: usize,
    is_open: bool,
    node: Length,
    ele: Length,
    report: Length,
    trouble: Length,
    face: Length,
    neigh: Length,
    ghost at_within: { at ≤ vec_len bytes },
}

impl SteadyDesk {
    ghost use Rattle.desk_mem.specs.SteadyMeanings.{steady_input, steady_ports, steady_held, written_to};

    /// A desk that holds these bytes under every name.
    ///
    /// ```
    /// let mut desk = SteadyDesk::new(bytes);
    /// let outcome = stuff(rt, alloc, &words, &mut desk, &OpenGate);
    /// let length = desk.written(Port::Report);
    /// ```
    pub fn new(input: Vec<u8>) -> SteadyDesk
        ensures start { IsStart (steady_input result) (steady_ports result) None }
        ensures held { (name : List ℕ) → steady_held result name ≡ Some input.items }
        ensures none_written { (p : Port) → written_to result p ≡ 0 }
    {
        SteadyDesk {
            bytes: input,
            at: 0,
            is_open: false,
            node: Length::new(false),
            ele: Length::new(false),
            report: Length::new(true),
            trouble: Length::new(true),
            face: Length::new(false),
            neigh: Length::new(false),
        }
    }

    /// How many bytes were written to the port since it was opened. It stays at 2^64 - 1 once there.
    pub fn written(&self, port: Port) -> u64
        ensures { result ≡ written_to self.now port }
    {
        match port {
            Port::Node => self.node.written,
            Port::Ele => self.ele.written,
            Port::Report => self.report.written,
            Port::Trouble => self.trouble.written,
            Port::Face => self.face.written,
            Port::Neigh => self.neigh.written,
        }
    }

    /// Adds to the length of the port's text.
    fn add(&mut self, port: Port, count: usize)
        ensures written { written_to self.new port ≡ min (written_to self.old port + count) (2 ^ 64 - 1) }
        ensures others { (p : Port) → p ≢ port → written_to self.new p ≡ written_to self.old p }
        ensures ports { (p : Port) → steady_ports self.new p ≡ steady_ports self.old p }
        ensures input { steady_input self.new ≡ steady_input self.old }
        ensures held { (n : List ℕ) → steady_held self.new n ≡ steady_held self.old n }
    {
        match port {
            Port::Node => self.node.add(count),
            Port::Ele => self.ele.add(count),
            Port::Report => self.report.add(count),
            Port::Trouble => self.trouble.add(count),
            Port::Face => self.face.add(count),
            Port::Neigh => self.neigh.add(count),
        }
    }
}

impl Desk for SteadyDesk {
    ghost use Rattle.desk_mem.specs.SteadyMeanings.{steady_input, steady_ports, steady_held};

    ghost input = { steady_input };

    ghost ports = { steady_ports };

    ghost tried = { λ _. None };

    ghost held = { steady_held };

    fn open_input(&mut self, _name: &[u8]) -> Result<(), Failed> {
        self.at = 0;
        self.is_open = true;
        Ok(())
    }

    fn read(&mut self, into: &mut [u8]) -> Result<usize, Failed> {
        let count = (self.bytes.len() - self.at).min(into.len());
        move_bytes(&self.bytes, self.at, into, count);
        self.at += count;
        Ok(count)
    }

    fn open_output(&mut self, port: Port, _name: &[u8]) -> Result<(), Failed> {
        match port {
            Port::Node => self.node = Length::new(true),
            Port::Ele => self.ele = Length::new(true),
            Port::Face => self.face = Length::new(true),
            Port::Neigh => self.neigh = Length::new(true),
            Port::Report | Port::Trouble => unreachable!(),
        }
        Ok(())
    }

    fn write(&mut self, port: Port, bytes: &[u8]) -> Result<usize, Failed> {
        self.add(port, bytes.len());
        Ok(bytes.len())
    }

    fn finish(&mut self, port: Port) -> Result<(), Failed> {
        match port {
            Port::Node => self.node.is_open = false,
            Port::Ele => self.ele.is_open = false,
            Port::Report => self.report.is_open = false,
            Port::Trouble => self.trouble.is_open = false,
            Port::Face => self.face.is_open = false,
            Port::Neigh => self.neigh.is_open = false,
        }
        Ok(())
    }
}
