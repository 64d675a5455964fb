ghost use Rattle.std.specs.Prelude.{◌≡◌, ◌≢◌, ◌+◌, ◌<◌, ◌≤◌, ◌^◌, ◌++◌, [], List, ℕ, length, codes, decimal, true};
ghost use Rattle.arrayvec.specs.ArrayVec.{array_vec_len};
ghost use Rattle.formats.specs.Faults.{head_fault_text, key_text, port_text, status_text, trouble_text, verdict_text, fault_line as fault_line_lem};
ghost use Rattle.formats.specs.declared.Port.{Port};
ghost use Rattle.formats.specs.declared.Port.TheVariants.{Trouble};
ghost use Rattle.formats.specs.declared.Status.TheVariants.{Done, Truncated};
ghost use Rattle.st_base.specs.Desk.{AppendsPart};
ghost use Rattle.st_base.specs.Frames.{OnlyPort};
ghost use Rattle.std.specs.Io.KnownBytes.{Appends};

use arrayvec::ArrayVec;
use itoa::Buffer;
use node_ele_write::put_all;
use st_base::{Desk, HeadFault, Key, Port, Status, Verdict};

/// The longest line has 69 bytes.
const ROOM: usize = 96;

/// A line that is told, in a buffer without memory.
type Line = ArrayVec<u8, ROOM>;

fn add(line: &mut Line, bytes: &[u8])
    requires { length line.old.items + length bytes.now ≤ ROOM }
    ensures { line.new.items ≡ line.old.items ++ bytes.now }
{
    for byte in bytes {
        line.push(*byte);
    }
}

fn add_number(line: &mut Line, number: u64)
    requires { length line.old.items + 20 ≤ ROOM }
    ensures text { line.new.items ≡ line.old.items ++ decimal number }
    ensures length { length line.new.items ≤ length line.old.items + 20 }
{
    let mut buffer = Buffer::new();
    add(line, buffer.format(number).as_bytes());
}

fn add_product(line: &mut Line, number: u128)
    requires { length line.old.items + 40 ≤ ROOM }
    ensures text { line.new.items ≡ line.old.items ++ decimal number }
    ensures length { length line.new.items ≤ length line.old.items + 40 }
{
    let mut buffer = Buffer::new();
    add(line, buffer.format(number).as_bytes());
}

fn port_name(port: Port) -> &'static [u8]
    ensures name { result.now ≡ port_text port }
    ensures length { length result.now ≤ 7 }
{
    match port {
        Port::Node => b"node",
        Port::Ele => b"ele",
        Port::Report => b"report",
        Port::Trouble => b"trouble",
        Port::Face => b"face",
        Port::Neigh => b"neigh",
    }
}

fn key_name(key: Key) -> &'static [u8]
    ensures name { result.now ≡ key_text key }
    ensures length { length result.now ≤ 23 }
{
    match key {
        Key::ObjectType => b"ObjectType",
        Key::NDims => b"NDims",
        Key::BinaryData => b"BinaryData",
        Key::ByteOrder => b"BinaryDataByteOrderMSB",
        Key::CompressedData => b"CompressedData",
        Key::Channels => b"ElementNumberOfChannels",
        Key::DimSize => b"DimSize",
        Key::ElementType => b"ElementType",
        Key::DataFile => b"ElementDataFile",
        Key::Spacing => b"ElementSpacing",
        Key::Offset => b"Offset",
    }
}

// What is wrong with a key.
fn add_key(line: &mut Line, wrong: &[u8], key: Key)
    requires { length line.old.items + length wrong.now + 23 ≤ ROOM }
    ensures text { line.new.items ≡ line.old.items ++ (wrong.now ++ key_text key) }
    ensures length { length line.new.items ≤ length line.old.items + length wrong.now + 23 }
{
    add(line, wrong);
    add(line, key_name(key));
}

// What is wrong with a port.
fn add_port(line: &mut Line, wrong: &[u8], port: Port)
    requires { length line.old.items + length wrong.now + 7 ≤ ROOM }
    ensures text { line.new.items ≡ line.old.items ++ (wrong.now ++ port_text port) }
    ensures length { length line.new.items ≤ length line.old.items + length wrong.now + 7 }
{
    add(line, wrong);
    add(line, port_name(port));
}

// A text, and then a number.
fn add_counted(line: &mut Line, text: &[u8], number: u64)
    requires { length line.old.items + length text.now + 20 ≤ ROOM }
    ensures text { line.new.items ≡ line.old.items ++ (text.now ++ decimal number) }
    ensures length { length line.new.items ≤ length line.old.items + length text.now + 20 }
{
    add(line, text);
    add_number(line, number);
}

fn add_header_fault(line: &mut Line, fault: HeadFault)
    requires { length line.old.items ≤ 7 }
    ensures text { line.new.items ≡ line.old.items ++ head_fault_text fault }
    ensures length { length line.new.items < ROOM }
{
    match fault {
        HeadFault::BadLine { place } => add_counted(line, b"bad header line at byte ", place),
        HeadFault::Missing { key } => add_key(line, b"header key missing: ", key),
        HeadFault::BadValue { key } => add_key(line, b"bad header value: ", key),
        HeadFault::Unsupported { key } => add_key(line, b"unsupported: ", key),
        HeadFault::HeaderTooLong => add(line, b"header too long"),
        HeadFault::HeadEnds => add(line, b"header ends early"),
        HeadFault::ReadFault => add(line, b"read fault"),
        HeadFault::NoMemory => add(line, b"no memory"),
    }
}

fn add_truncated(line: &mut Line, got: u64, wanted: u64)
    requires { length line.old.items ≤ 7 }
    ensures text { line.new.items ≡ line.old.items ++ status_text (Truncated got wanted) }
    ensures length { length line.new.items < ROOM }
{
    add(line, b"truncated: ");
    add_number(line, got);
    add(line, b" of ");
    add_number(line, wanted);
    add(line, b" bytes");
}

// The tetrahedron that a verdict names.
fn add_verdict(line: &mut Line, verdict: Verdict)
    requires { length line.old.items ≤ 7 }
    ensures text { line.new.items ≡ line.old.items ++ (codes "not sound: tetrahedron " ++ verdict_text verdict) }
    ensures length { length line.new.items < ROOM }
{
    match verdict {
        Verdict::NotPositive { tet } | Verdict::Crowded { tet } | Verdict::Turned { tet } => {
            add_counted(line, b"not sound: tetrahedron ", u64::from(tet));
        }
        Verdict::Sound { .. } => add(line, b"not sound: tetrahedron "),
    }
}

fn add_status(line: &mut Line, status: Status)
    requires { length line.old.items ≤ 7 }
    ensures text { line.new.items ≡ line.old.items ++ status_text status }
    ensures length { length line.new.items < ROOM }
{
    match status {
        Status::Done => {}
        Status::BadWords { place } => add_counted(line, b"bad words at ", place),
        Status::BadHeader { fault } => add_header_fault(line, fault),
        Status::Unsupported { key } => add_key(line, b"unsupported: ", key),
        Status::TooLarge { padded } => {
            add(line, b"too large: ");
            add_product(line, padded);
        }
        Status::Truncated { got, wanted } => add_truncated(line, got, wanted),
        Status::ReadFault => add(line, b"read fault"),
        Status::WriteFault { port } => add_port(line, b"write fault: ", port),
        Status::NoMemory => add(line, b"no memory"),
        Status::TooManyTets { tets } => add_counted(line, b"too many tetrahedra: ", tets),
        Status::BadMesh { file, .. } => add_port(line, b"bad mesh file: ", file),
        Status::NotSound { verdict } => add_verdict(line, verdict),
    }
}

// The line of a status other than Done.
fn fault_line(status: Status) -> Line
    ensures { result.items ≡ fault_line_lem status }
{
    let mut line = Line::new();
    add(&mut line, b"stuff: ");
    add_status(&mut line, status);
    add(&mut line, b"\n");
    line
}

/// Writes the line of a status to Trouble, as far as it goes: nothing after Done.
pub fn tell<D: Desk>(desk: &mut D, status: Status)
    requires is_open { (D.ports desk.old Trouble).is_open ≡ true }
    requires no_faults { (D.ports desk.old Trouble).faults ≡ 0 }
    ensures is_open { (D.ports desk.new Trouble).is_open ≡ true }
    ensures part { AppendsPart (D.ports desk.old Trouble).text (D.ports desk.new Trouble).text (trouble_text status) }
    ensures whole { (D.ports desk.new Trouble).faults ≡ 0 →
        Appends (D.ports desk.old Trouble).text (D.ports desk.new Trouble).text (trouble_text status) }
    ensures apart { OnlyPort D.Desk Trouble desk.old desk.new }
    ensures quiet { status ≡ Status.Done → D.ports desk.new Trouble ≡ D.ports desk.old Trouble }
{
    match status {
        Status::Done => {}
        _ => {
            let line = fault_line(status);
            let _ = put_all(desk, Port::Trouble, line.as_slice());
        }
    }
}
