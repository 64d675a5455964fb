ghost use Rattle.std.specs.Prelude.{◌≡◌, ◌≢◌, ◌<◌, List, ℕ, true, false, Some, None, OnOk, OnErr};
ghost use Rattle.st_base.specs.Desk.{IsStart};
ghost use Rattle.st_base.specs.declared.Port.{Port};

use crate::held::{Held, copy_of};
use crate::input::MemInput;
use crate::port::{MemPort, note_name};
use st_base::{Desk, Failed, NoMemory, Port};
use std::alloc::Global;

/// A desk in memory that tells all its meanings.
///
/// A call on it fails where a switch says so, where an input is opened under a name that holds
/// nothing, and where memory runs out. Each such failure is counted.
///
/// A read or a write moves at least one byte: what it may move at most is above 0.
#[derive(Drop)]
pub struct MemDesk {
    alloc: Global,
    // The latest first.
    inputs: Vec<Held>,
    input: MemInput,
    node: MemPort,
    ele: MemPort,
    report: MemPort,
    trouble: MemPort,
    face: MemPort,
    neigh: MemPort,
    tried: Vec<Vec<u8>>,
    most: usize,
    ghost most_is_some: { 0 < most },
}

impl MemDesk {
    ghost use Rattle.desk_mem.specs.Meanings.{mem_state, mem_input, mem_ports, mem_tried, mem_held, port_part, SameSwitches, input_limit, output_limit, refuses_input, refuses_open, refuses_finish, most_at_once};
    ghost use Rattle.desk_mem.specs.Parts.{names_of, port_state};

    /// A desk that holds no input, and that nothing makes fail.
    ///
    /// ```
    /// let mut desk = MemDesk::new(alloc);
    /// desk.put_input(b"a.mha", bytes)?;
    /// let outcome = stuff(rt, alloc, &words, &mut desk, &OpenGate);
    /// ```
    pub fn new(alloc: Global) -> MemDesk
        ensures start { IsStart (mem_input result) (mem_ports result) (mem_tried result) }
        ensures holds_none { (name : List ℕ) → mem_held result name ≡ None }
        ensures no_input_limit { input_limit result ≡ None }
        ensures input_not_refused { refuses_input result ≡ false }
        ensures no_output_limit { (p : Port) → output_limit result p ≡ None }
        ensures open_not_refused { (p : Port) → refuses_open result p ≡ false }
        ensures finish_not_refused { (p : Port) → refuses_finish result p ≡ false }
    {
        MemDesk {
            alloc,
            inputs: Vec::new(alloc),
            input: MemInput::new(alloc),
            node: MemPort::new(alloc, false),
            ele: MemPort::new(alloc, false),
            report: MemPort::new(alloc, true),
            trouble: MemPort::new(alloc, true),
            face: MemPort::new(alloc, false),
            neigh: MemPort::new(alloc, false),
            tried: Vec::new(alloc),
            most: usize::MAX,
        }
    }

    /// Holds these bytes under the name, in place of those that were held under it. `NoMemory`
    /// leaves all as it was.
    pub fn put_input(&mut self, name: &[u8], bytes: &[u8]) -> Result<(), NoMemory>
        ensures held { OnOk result (mem_held self.new name.now ≡ Some bytes.now) }
        ensures others { (n : List ℕ) → n ≢ name.now → mem_held self.new n ≡ mem_held self.old n }
        ensures state { mem_state self.new ≡ mem_state self.old }
        ensures switches { SameSwitches self.old self.new }
        ensures err { OnErr result ((n : List ℕ) → mem_held self.new n ≡ mem_held self.old n) }
    {
        let Ok(name) = name.to_vec(self.alloc) else {
            return Err(NoMemory);
        };
        let Ok(bytes) = bytes.to_vec(self.alloc) else {
            return Err(NoMemory);
        };
        if self.inputs.insert(0, Held { name, bytes }).is_err() {
            return Err(NoMemory);
        }
        Ok(())
    }

    /// From now on reads give no byte past the first `n` of an input: once those were given, they
    /// fail.
    pub fn fail_input_after(&mut self, n: u64)
        ensures limit { input_limit self.new ≡ Some n }
        ensures state { mem_state self.new ≡ mem_state self.old }
        ensures held { (n : List ℕ) → mem_held self.new n ≡ mem_held self.old n }
    {
        self.input.limit = Some(n as usize);
    }

    /// From now on writes to the port take bytes until its text has `n`: then they fail.
    pub fn fail_output_after(&mut self, port: Port, n: u64)
        ensures limit { output_limit self.new port ≡ Some n }
        ensures others { (p : Port) → p ≢ port → output_limit self.new p ≡ output_limit self.old p }
        ensures state { mem_state self.new ≡ mem_state self.old }
        ensures held { (n : List ℕ) → mem_held self.new n ≡ mem_held self.old n }
    {
        let limit = Some(n as usize);
        match port {
            Port::Node => self.node.limit = limit,
            Port::Ele => self.ele.limit = limit,
            Port::Report => self.report.limit = limit,
            Port::Trouble => self.trouble.limit = limit,
            Port::Face => self.face.limit = limit,
            Port::Neigh => self.neigh.limit = limit,
        }
    }

    /// From now on openings of an input fail.
    pub fn refuse_input(&mut self)
        ensures refused { refuses_input self.new ≡ true }
        ensures state { mem_state self.new ≡ mem_state self.old }
        ensures held { (n : List ℕ) → mem_held self.new n ≡ mem_held self.old n }
    {
        self.input.refuse_open = true;
    }

    /// From now on openings of the port fail. It has no effect on Report and Trouble, which are
    /// open from the start and can't be opened.
    pub fn refuse_open(&mut self, port: Port)
        ensures refused { refuses_open self.new port ≡ true }
        ensures others { (p : Port) → p ≢ port → refuses_open self.new p ≡ refuses_open self.old p }
        ensures state { mem_state self.new ≡ mem_state self.old }
        ensures held { (n : List ℕ) → mem_held self.new n ≡ mem_held self.old n }
    {
        match port {
            Port::Node => self.node.refuse_open = true,
            Port::Ele => self.ele.refuse_open = true,
            Port::Report => self.report.refuse_open = true,
            Port::Trouble => self.trouble.refuse_open = true,
            Port::Face => self.face.refuse_open = true,
            Port::Neigh => self.neigh.refuse_open = true,
        }
    }

    /// From now on finishing the port fails. The port is closed by it all the same.
    pub fn refuse_finish(&mut self, port: Port)
        ensures refused { refuses_finish self.new port ≡ true }
        ensures others { (p : Port) → p ≢ port → refuses_finish self.new p ≡ refuses_finish self.old p }
        ensures state { mem_state self.new ≡ mem_state self.old }
        ensures held { (n : List ℕ) → mem_held self.new n ≡ mem_held self.old n }
    {
        match port {
            Port::Node => self.node.refuse_finish = true,
            Port::Ele => self.ele.refuse_finish = true,
            Port::Report => self.report.refuse_finish = true,
            Port::Trouble => self.trouble.refuse_finish = true,
            Port::Face => self.face.refuse_finish = true,
            Port::Neigh => self.neigh.refuse_finish = true,
        }
    }

    /// From now on each read and write moves at most `n` bytes.
    pub fn at_most(&mut self, n: usize)
        requires { 0 < n }
        ensures most { most_at_once self.new ≡ n }
        ensures state { mem_state self.new ≡ mem_state self.old }
        ensures held { (n : List ℕ) → mem_held self.new n ≡ mem_held self.old n }
    {
        self.most = n;
    }

    /// The text of a port, from its last opening on.
    pub fn text(&self, port: Port) -> &[u8]
        ensures { (mem_ports self.now port).text ≡ Some result.now }
    {
        self.port(port).text.as_slice()
    }

    /// The names with which files were opened, in order.
    pub fn names(&self) -> &[Vec<u8>]
        ensures { mem_tried self.now ≡ Some (names_of result.now) }
    {
        self.tried.as_slice()
    }

    /// How many calls on the input failed.
    pub fn input_faults(&self) -> u64
        ensures { result ≡ (mem_input self.now).faults }
    {
        self.input.faults
    }

    /// How many calls on the port failed.
    pub fn faults(&self, port: Port) -> u64
        ensures { result ≡ (mem_ports self.now port).faults }
    {
        self.port(port).faults
    }

    fn port(&self, port: Port) -> &MemPort
        ensures { result.now ≡ port_part self.now port }
    {
        match port {
            Port::Node => &self.node,
            Port::Ele => &self.ele,
            Port::Report => &self.report,
            Port::Trouble => &self.trouble,
            Port::Face => &self.face,
            Port::Neigh => &self.neigh,
        }
    }
}

impl Desk for MemDesk {
    ghost use Rattle.desk_mem.specs.Meanings.{mem_input, mem_ports, mem_tried, mem_held};

    ghost input = { mem_input };

    ghost ports = { mem_ports };

    ghost tried = { mem_tried };

    ghost held = { mem_held };

    fn open_input(&mut self, name: &[u8]) -> Result<(), Failed> {
        if self.input.refuse_open {
            return Err(self.input.fail());
        }
        let Some(bytes) = copy_of(self.alloc, &self.inputs, name) else {
            return Err(self.input.fail());
        };
        if note_name(self.alloc, &mut self.tried, name).is_err() {
            return Err(self.input.fail());
        }
        self.input.open(bytes);
        Ok(())
    }

    fn read(&mut self, into: &mut [u8]) -> Result<usize, Failed> {
        self.input.read(into, self.most)
    }

    fn open_output(&mut self, port: Port, name: &[u8]) -> Result<(), Failed> {
        match port {
            Port::Node => self.node.open(self.alloc, &mut self.tried, name),
            Port::Ele => self.ele.open(self.alloc, &mut self.tried, name),
            Port::Face => self.face.open(self.alloc, &mut self.tried, name),
            Port::Neigh => self.neigh.open(self.alloc, &mut self.tried, name),
            Port::Report | Port::Trouble => unreachable!(),
        }
    }

    fn write(&mut self, port: Port, bytes: &[u8]) -> Result<usize, Failed> {
        match port {
            Port::Node => self.node.write(bytes, self.most),
            Port::Ele => self.ele.write(bytes, self.most),
            Port::Report => self.report.write(bytes, self.most),
            Port::Trouble => self.trouble.write(bytes, self.most),
            Port::Face => self.face.write(bytes, self.most),
            Port::Neigh => self.neigh.write(bytes, self.most),
        }
    }

    fn finish(&mut self, port: Port) -> Result<(), Failed> {
        match port {
            Port::Node => self.node.finish(),
            Port::Ele => self.ele.finish(),
            Port::Report => self.report.finish(),
            Port::Trouble => self.trouble.finish(),
            Port::Face => self.face.finish(),
            Port::Neigh => self.neigh.finish(),
        }
    }
}
