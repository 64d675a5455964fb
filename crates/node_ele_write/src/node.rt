ghost use Rattle.std.specs.Prelude.{◌≡◌, ◌+◌, ◌*◌, ◌<◌, ◌≤◌, ◌^◌, ◌∷◌, ◌++◌, [], Some, None, length, pos, ◌*ℤ◌, unsigned_abs};
ghost use Rattle.formats.specs.Frames.{AreAxes, IsAxis};
ghost use Rattle.mesh_texts.specs.Coordinates.{coordinate_text};
ghost use Rattle.mesh_texts.specs.Frames.{world_text, world_value as world_value_lem};
ghost use Rattle.mesh_texts.specs.Lines.{marker_text, node_line};
ghost use Rattle.node_ele_write.specs.Printable.{IsPrintable};
ghost use Rattle.node_ele_write.specs.Texts.{place_before};

use crate::line::{Line, ROOM};
use crate::own_units::world_value;
use crate::world::put_world;
use st_base::{Axis, Frame, Place};

// Puts a coordinate in raw voxel steps in front, behind a space.
fn put_stepped(line: &mut Line, step: u32, coordinate: i64)
    requires small { unsigned_abs (pos step *ℤ coordinate) < 2 ^ 40 }
    requires room { length line.old + 36 ≤ ROOM }
    ensures text { line.new ≡ 32 ∷ (coordinate_text (pos step *ℤ coordinate) ++ line.old) }
    ensures length { length line.new ≤ length line.old + 26 }
{
    line.coordinate(i64::from(step) * coordinate);
    line.byte(b' ');
}

// Puts a coordinate in the volume's own units in front, behind a space.
fn put_own(line: &mut Line, axis: &Axis, step: u32, coordinate: i64)
    requires axis { IsAxis axis.now }
    requires near { unsigned_abs (pos step *ℤ coordinate) ≤ 8192 * 9000 }
    requires room { length line.old + 54 ≤ ROOM }
    ensures text { line.new ≡ 32 ∷ (world_text (world_value_lem axis.now step coordinate) ++ line.old) }
    ensures length { length line.new ≤ length line.old + 44 }
{
    put_world(line, world_value(axis, step, coordinate));
    line.byte(b' ');
}

// Puts a place in raw voxel steps in front, each coordinate behind a space.
fn put_stepped_place(line: &mut Line, place: Place, step: u32)
    requires x { unsigned_abs (pos step *ℤ place.x) < 2 ^ 40 }
    requires y { unsigned_abs (pos step *ℤ place.y) < 2 ^ 40 }
    requires z { unsigned_abs (pos step *ℤ place.z) < 2 ^ 40 }
    requires room { length line.old ≤ 3 }
    ensures text { line.new ≡ place_before (record { step = step; world = None }) place line.old }
    ensures length { length line.new ≤ length line.old + 132 }
{
    put_stepped(line, step, place.z);
    put_stepped(line, step, place.y);
    put_stepped(line, step, place.x);
}

// Puts a place in the volume's own units in front, each coordinate behind a space.
fn put_own_place(line: &mut Line, place: Place, axes: &[Axis; 3], step: u32)
    requires axes { AreAxes axes.now }
    requires x { unsigned_abs (pos step *ℤ place.x) ≤ 8192 * 9000 }
    requires y { unsigned_abs (pos step *ℤ place.y) ≤ 8192 * 9000 }
    requires z { unsigned_abs (pos step *ℤ place.z) ≤ 8192 * 9000 }
    requires room { length line.old ≤ 3 }
    ensures text { line.new ≡ place_before (record { step = step; world = Some axes.now }) place line.old }
    ensures length { length line.new ≤ length line.old + 132 }
{
    put_own(line, &axes[2], step, place.z);
    put_own(line, &axes[1], step, place.y);
    put_own(line, &axes[0], step, place.x);
}

// Puts a place in a frame in front, each coordinate behind a space.
fn put_place(line: &mut Line, place: Place, frame: &Frame)
    requires printable { IsPrintable frame.now place }
    requires room { length line.old ≤ 3 }
    ensures text { line.new ≡ place_before frame.now place line.old }
    ensures length { length line.new ≤ length line.old + 132 }
{
    match &frame.world {
        None => put_stepped_place(line, place, frame.step),
        Some(axes) => put_own_place(line, place, axes, frame.step),
    }
}

// Puts the marker of a node and the end of its line in front.
fn put_marker(line: &mut Line, level: bool)
    requires { line.old ≡ [] }
    ensures text { line.new ≡ 32 ∷ (marker_text level ++ 10 ∷ []) }
    ensures length { length line.new ≡ 3 }
{
    line.byte(b'\n');
    line.byte(if level { b'1' } else { b'0' });
    line.byte(b' ');
}

/// The line of a node, in an empty line: its number, its place in a frame, and 1 where it is a level node, else 0.
pub fn put_node(line: &mut Line, number: u32, place: Place, frame: &Frame, level: bool)
    requires printable { IsPrintable frame.now place }
    requires empty { line.old ≡ [] }
    ensures { line.new ≡ node_line frame.now (number, record { place = place; level = level }) }
{
    put_marker(line, level);
    put_place(line, place, frame);
    line.number(u64::from(number));
}
