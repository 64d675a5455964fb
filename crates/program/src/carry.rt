ghost use Rattle.std.specs.Prelude.{◌≡◌, ◌↔◌, ◌⊎◌, ◌<◌, ℕ, true};
ghost use Rattle.std.specs.Io.KnownBytes.{Appends};
ghost use Rattle.formats.specs.declared.Port.TheVariants.{Report, Trouble};
ghost use Rattle.command_line.specs.Grammar.{IsBadPlace};
ghost use Rattle.formats.specs.Faults.{trouble_text};
ghost use Rattle.st_base.specs.Desk.{IsStart, AppendsPart};
ghost use Rattle.st_base.specs.Frames.{OnlyPort};
ghost use Rattle.program.specs.Asked.{asked_by};

use crate::asking::{Asked, read_asked};
use crate::help::{HELP, VERSION};
use crate::words::words_of;
use desk_std::{FileSystem, StdDesk};
use node_ele_write::{WriteFault, put_all};
use st_base::{Desk, OpenGate, Port, Status, Words};
use std::alloc::Global;
use std::env::Env;
use std::io::Write;
use std::thread::Threads;
use stuff::{stuff, tell};

// Writes a text to Report.
fn print<D: Desk>(desk: &mut D, text: &str) -> Status
    requires is_open { (D.ports desk.old Report).is_open ≡ true }
    requires faults { (D.ports desk.old Report).faults ≡ 0 }
    ensures done { result ≡ Status.Done → Appends (D.ports desk.old Report).text (D.ports desk.new Report).text text.now }
    ensures fault { (result ≡ Status.WriteFault Report) ↔ (0 < (D.ports desk.new Report).faults) }
    ensures no_other { (result ≡ Status.Done) ⊎ (result ≡ Status.WriteFault Report) }
    ensures apart { OnlyPort D.Desk Report desk.old desk.new }
{
    match put_all(desk, Port::Report, text.as_bytes()) {
        Ok(()) => Status::Done,
        Err(WriteFault) => Status::WriteFault { port: Port::Report },
    }
}

/// Answers the words over a desk on which nothing was done yet: with the help, with the version, or as the top call does.
pub fn program<R: Threads + Sync, D: Desk + Send>(
    rt: &R,
    alloc: Global,
    words: &Words,
    desk: &mut D,
) -> Status
    requires { IsStart (D.input desk.old) (D.ports desk.old) (D.tried desk.old) }
    ensures help { asked_by words.now ≡ Asked.Help → result ≡ Status.Done → Appends (D.ports desk.old Report).text (D.ports desk.new Report).text HELP.now }
    ensures version { asked_by words.now ≡ Asked.Version → result ≡ Status.Done → Appends (D.ports desk.old Report).text (D.ports desk.new Report).text VERSION.now }
    ensures bad_words { asked_by words.now ≡ Asked.Command → (place : ℕ) → (result ≡ Status.BadWords place) ↔ IsBadPlace words.now place }
    ensures read_fault { (result ≡ Status.ReadFault) ↔ (0 < (D.input desk.new).faults) }
    ensures write_fault { (result ≡ Status.WriteFault Report) ↔ (0 < (D.ports desk.new Report).faults) }
    ensures trouble { AppendsPart (D.ports desk.old Trouble).text (D.ports desk.new Trouble).text (trouble_text result) }
{
    let status = match read_asked(words) {
        Asked::Help => print(desk, HELP),
        Asked::Version => print(desk, VERSION),
        Asked::Command => return stuff(rt, alloc, words, desk, &OpenGate).status,
    };
    tell(desk, status);
    status
}

/// Carries out the words of the command line over these files and streams.
pub fn carry_out<
    V: Env,
    R: Threads + Sync,
    F: FileSystem + Drop + Send,
    O: Write + Drop + Send,
    E: Write + Drop + Send,
>(env: &V, rt: &R, alloc: Global, files: F, report: O, trouble: E) -> Status
where
    F::File: Send,
{
    let mut desk = StdDesk::new(files, report, trouble);
    let Ok(words) = words_of(env, alloc) else {
        tell(&mut desk, Status::NoMemory);
        return Status::NoMemory;
    };
    program(rt, alloc, &words, &mut desk)
}
