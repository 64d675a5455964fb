//! The desk over files, in the folder that the tests run in.
use desk_std::{StdDesk, System};
use st_base::{Desk, Failed, Port};
use table_lines::field;

// A name, and a text that is written under it and read back. A later row of the same name has a shorter text.
const FILES: &[u8] = b"\
a.node | 4 3 0 0 is longer than what comes later
a.node | 4 3 0 0
a.ele | 1 4 0
one file with a long name.node | its text
other file with a long name.node | another text
other file with a long name.node | a text
f\xc3\xa4rbung.node | not ASCII
";

// Names that can't be opened: there is no such file, no such folder, and no such text.
const NAMES: &[u8] = b"\
none
no folder/a.node
\xff
";

#[test]
fn reads_back_what_it_wrote(rt: HostRuntime) {
    for (n, row) in FILES
        .trim_ascii_end()
        .split(|byte| *byte == b'\n')
        .enumerate()
    {
        let (name, text) = field(row);
        let text = text.trim_ascii();
        let own = rt.clone().expect(&rt, "memory");
        let mut desk = StdDesk::new(System::new(own), rt.stdout(), rt.stderr());
        assert!(rt; desk.open_output(Port::Node, name).is_ok(), "in row {n}");
        assert_eq!(rt; desk.write(Port::Node, text), Ok(text.len()), "in row {n}");
        assert!(rt; desk.finish(Port::Node).is_ok(), "in row {n}");
        assert!(rt; desk.open_input(name).is_ok(), "in row {n}");
        let mut into = [0; 64];
        assert_eq!(rt; desk.read(&mut into), Ok(text.len()), "in row {n}");
        assert!(rt; into.starts_with(text), "in row {n}");
        assert_eq!(rt; desk.read(&mut into), Ok(0), "in row {n}");
    }
}

#[test]
fn refuses_names(rt: HostRuntime) {
    for (n, name) in NAMES
        .trim_ascii_end()
        .split(|byte| *byte == b'\n')
        .enumerate()
    {
        let own = rt.clone().expect(&rt, "memory");
        let mut desk = StdDesk::new(System::new(own), rt.stdout(), rt.stderr());
        assert_eq!(rt; desk.open_input(name), Err(Failed), "in row {n}");
    }
}
