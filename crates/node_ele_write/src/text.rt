ghost use Rattle.std.specs.Prelude.{◌≡◌, ◌+◌, ◌<◌, ◌≤◌, ◌^◌, ◌++◌, length, decimal, pos, ◌*ℤ◌, unsigned_abs, OnOk, OnErr, IfOk};
ghost use Rattle.mesh_texts.specs.Coordinates.{coordinate_text as coordinate_text_lem};
ghost use Rattle.mesh_texts.specs.Lines.{node_line as node_line_lem, ele_line as ele_line_lem};
ghost use Rattle.mesh_texts.specs.Files.{counts_text as counts_text_lem};
ghost use Rattle.node_ele_write.specs.Printable.{IsPrintable};

use crate::line::Line;
use crate::node::put_node;
use st_base::{Frame, NoMemory, Place};
use std::alloc::Global;

/// Appends `value`/8192 with 13 decimals, which is exact.
pub fn coordinate_text(out: &mut Vec<u8>, value: i64) -> Result<(), NoMemory>
    requires { unsigned_abs value < 2 ^ 40 }
    ensures text { OnOk result (out.new.items ≡ out.old.items ++ coordinate_text_lem value) }
    ensures unchanged { OnErr result (out.new.items ≡ out.old.items) }
{
    let mut line = Line::new();
    line.coordinate(value);
    line.append_to(out)
}

/// Appends the line of a node: its number, its place in a frame, and 1 where it is a level node, else 0.
pub fn node_line(
    out: &mut Vec<u8>,
    number: u32,
    place: Place,
    frame: Frame,
    level: bool,
) -> Result<(), NoMemory>
    requires { IsPrintable frame place }
    ensures text { OnOk result (out.new.items ≡ out.old.items ++ node_line_lem frame (number, record { place = place; level = level })) }
    ensures unchanged { OnErr result (out.new.items ≡ out.old.items) }
{
    let mut line = Line::new();
    put_node(&mut line, number, place, &frame, level);
    line.append_to(out)
}

/// Appends the line of a tetrahedron: its number, and its nodes.
pub fn ele_line(out: &mut Vec<u8>, number: u64, nodes: [u32; 4]) -> Result<(), NoMemory>
    ensures text { OnOk result (out.new.items ≡ out.old.items ++ ele_line_lem (number, nodes)) }
    ensures unchanged { OnErr result (out.new.items ≡ out.old.items) }
{
    let mut line = Line::new();
    line.byte(b'\n');
    line.number(u64::from(nodes[3]));
    line.byte(b' ');
    line.number(u64::from(nodes[2]));
    line.byte(b' ');
    line.number(u64::from(nodes[1]));
    line.byte(b' ');
    line.number(u64::from(nodes[0]));
    line.byte(b' ');
    line.number(number);
    line.append_to(out)
}

/// Appends a text, a number and a text. Memory may run out in the middle.
pub fn add(out: &mut Vec<u8>, before: &[u8], number: u64, after: &[u8]) -> Result<(), NoMemory>
    ensures { OnOk result (out.new.items ≡ out.old.items ++ (before.now ++ (decimal number ++ after.now))) }
{
    let mut line = Line::new();
    line.number(number);
    if out.extend_from_slice(before).is_err() {
        return Err(NoMemory);
    }
    line.append_to(out)?;
    if out.extend_from_slice(after).is_err() {
        return Err(NoMemory);
    }
    Ok(())
}

/// The two lines that tell how many nodes and tetrahedra there are.
#[tactic(auto, unfolding(mesh_texts::specs::Files::counts_text))]
pub fn counts_text(alloc: Global, nodes: u32, tets: u64) -> Result<Vec<u8>, NoMemory>
    ensures { IfOk result (λ text. text.items ≡ counts_text_lem nodes tets) }
{
    let mut out = Vec::new(alloc);
    add(&mut out, b"nodes ", u64::from(nodes), b"\n")?;
    add(&mut out, b"tetrahedra ", tets, b"\n")?;
    Ok(out)
}
