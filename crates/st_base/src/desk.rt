ghost use Rattle.std.specs.Prelude.{◌≡◌, ◌≢◌, ◌<◌, ℕ, List, length, Option, true, false, OnOk, OnErr, IfOk};
ghost use Rattle.std.specs.Io.{ReadsAtMost, WritesAtMost};
ghost use Rattle.std.specs.Io.KnownBytes.{ReadConsumes, WriteAppends};
ghost use Rattle.formats.specs.declared.Port.{Port};
ghost use Rattle.st_base.specs.Causes.{HasCause};
ghost use Rattle.st_base.specs.Desk.{InputState, PortState, with_name, MayTry, IsTold, IsFile, BeginsAs, SamePort, SameInput, KeepsAllButInput, KeepsAllButOpening, KeepsAllButOpeningInput, KeepsAllButPort};

use formats::Port;

/// A call on a desk did not do its work.
#[derive(Clone, Copy, Debug, PartialEq, Eq)]
pub struct Failed;

/// The outside: an input, six ports, and a count of faults for each of these seven.
///
/// A count never falls, and stands still at 2^64 - 1. A call answers [`Failed`] only where the count
/// of the input, or of the port that it is on, rose in it; it leaves all other counts as they were.
/// The bytes that are held under a name never change. Report and Trouble are open from the start.
pub trait Desk {
    /// The open input.
    ghost input: { Self → InputState };

    /// The ports.
    ghost ports: { Self → Port → PortState };

    /// The names with which files were opened, where the desk tells them.
    ghost tried: { Self → Option (List (List ℕ)) };

    /// The bytes that are held under a name, where the desk tells them.
    ghost held: { Self → List ℕ → Option (List ℕ) };

    /// Makes the bytes that are held under the name the open input, whole, and gives up an input
    /// that was open before. Failed leaves the input as it was.
    fn open_input(&mut self, name: &[u8]) -> Result<(), Failed>
        ensures opened { OnOk result ((input self.new).is_open ≡ true) }
        ensures told { OnOk result (IsTold (held self.old name.now) (input self.new).left) }
        ensures as_before { OnErr result (SameInput (input self.old) (input self.new)) }
        ensures tried { OnOk result (tried self.new ≡ with_name (tried self.old) name.now) }
        ensures may_try { OnErr result (MayTry (tried self.old) (tried self.new) name.now) }
        ensures apart { KeepsAllButOpeningInput ports held self.old self.new }
        ensures cause { HasCause (input self.old).faults (input self.new).faults result };

    /// Moves at least one byte of the open input into the first places, or none where nothing is
    /// left, and answers how many. Failed leaves the input as it was.
    fn read(&mut self, into: &mut [u8]) -> Result<usize, Failed>
        requires is_open { (input self.old).is_open ≡ true }
        requires room { 0 < length into.old }
        ensures bound { ReadsAtMost result into.new }
        ensures bytes { ReadConsumes (input self.old).left (input self.new).left result into.new }
        ensures is_open { (input self.new).is_open ≡ true }
        ensures apart { KeepsAllButInput ports tried held self.old self.new }
        ensures cause { HasCause (input self.old).faults (input self.new).faults result };

    /// Opens the port Node, Ele, Face or Neigh with an empty text. Failed leaves it as it was.
    fn open_output(&mut self, port: Port, name: &[u8]) -> Result<(), Failed>
        requires may_open { IsFile port }
        requires closed { (ports self.old port).is_open ≡ false }
        ensures opened { OnOk result ((ports self.new port).is_open ≡ true) }
        ensures told { OnOk result (BeginsAs (ports self.new port) name.now) }
        ensures as_before { OnErr result (SamePort (ports self.old port) (ports self.new port)) }
        ensures tried { OnOk result (tried self.new ≡ with_name (tried self.old) name.now) }
        ensures may_try { OnErr result (MayTry (tried self.old) (tried self.new) name.now) }
        ensures apart { KeepsAllButOpening input ports held port self.old self.new }
        ensures cause { HasCause (ports self.old port).faults (ports self.new port).faults result };

    /// Appends some first bytes to the port's text, at least one where there are any, and answers
    /// how many. Failed leaves the text as it was.
    fn write(&mut self, port: Port, bytes: &[u8]) -> Result<usize, Failed>
        requires { (ports self.old port).is_open ≡ true }
        ensures bound { WritesAtMost result bytes.now }
        ensures some { 0 < length bytes.now → IfOk result (λ n. 0 < n) }
        ensures text { WriteAppends (ports self.old port).text (ports self.new port).text result bytes.now }
        ensures is_open { (ports self.new port).is_open ≡ true }
        ensures name { (ports self.new port).name ≡ (ports self.old port).name }
        ensures apart { KeepsAllButPort input ports tried held port self.old self.new }
        ensures cause { HasCause (ports self.old port).faults (ports self.new port).faults result };

    /// Ends the use of a port, whatever it answers.
    fn finish(&mut self, port: Port) -> Result<(), Failed>
        requires { (ports self.old port).is_open ≡ true }
        ensures closed { (ports self.new port).is_open ≡ false }
        ensures text { (ports self.new port).text ≡ (ports self.old port).text }
        ensures name { (ports self.new port).name ≡ (ports self.old port).name }
        ensures apart { KeepsAllButPort input ports tried held port self.old self.new }
        ensures cause { HasCause (ports self.old port).faults (ports self.new port).faults result };
}
