ghost use Rattle.std.specs.Prelude.{◌≡◌, ◌+◌, ◌*◌, ◌^◌, ◌≤◌, ◌<◌, ◌++◌, ◌∷◌, Some, None, pos, ◌*ℤ◌, ◌≤ℤ◌, unsigned_abs, All, length, map, OnOk, OnErr};
ghost use Rattle.formats.specs.Frames.{AreAxes, IsAxis};
ghost use Rattle.mesh_texts.specs.Coordinates.{coordinate_text};
ghost use Rattle.mesh_texts.specs.Frames.{world_text, world_value as world_value_lem};
ghost use Rattle.mesh_texts.specs.Lines.{ele_lines as ele_lines_lem, marker_text, node_line as node_line_lem, renumbered};
ghost use Rattle.node_ele_write.specs.Printable.{IsPrintable};
ghost use Rattle.node_ele_write.specs.Stars.{star_tets};
ghost use Rattle.node_ele_write.specs.Texts.{spaced};

use crate::fractions::Fractions;
use crate::front::Front;
use crate::line::Line;
use crate::own_units::world_value;
use crate::row::{ROW, Row};
use crate::tet_lines::{LINES, append, make_room, put_line, put_star};
use crate::text::node_line;
use crate::texts::{Texts, WIDTH};
use crate::world_texts::{PLACES, WorldTexts};
use st_base::{Axis, Frame, NoMemory, Place};
use std::alloc::Global;

/// What lines are written with: a row that is used again, and texts of numbers and of fractions.
#[derive(Drop)]
pub struct Pen {
    row: Row,
    line: Line,
    texts: Texts,
    front: Front,
    lines: [u8; LINES],
    worlds: WorldTexts,
    fractions: Fractions,
}

// A coordinate in raw voxel steps.
fn stepped(step: u32, coordinate: i64) -> i64
    requires { unsigned_abs (pos step *ℤ coordinate) < 2 ^ 40 }
    ensures { result ≡ pos step *ℤ coordinate }
{
    i64::from(step) * coordinate
}

// Where the text of a coordinate on axis `number` is held: the planes of the lattice apart from all others.
fn place_of(number: u64, coordinate: i64) -> usize
    requires { number < 3 }
    ensures { result < PLACES }
{
    let size = coordinate.unsigned_abs();
    let within = if size % 4096 == 0 {
        size / 4096 % 2048
    } else {
        2048 + size % 2048
    };
    (number * 4096 + within) as usize
}

impl Pen {
    /// A pen. It takes two mebibytes.
    pub fn new(alloc: Global) -> Result<Pen, NoMemory> {
        let Ok(texts) = Texts::new(alloc) else {
            return Err(NoMemory);
        };
        let Ok(worlds) = WorldTexts::new(alloc) else {
            return Err(NoMemory);
        };
        let Ok(fractions) = Fractions::new(alloc) else {
            return Err(NoMemory);
        };
        Ok(Pen {
            row: Row::new(),
            line: Line::new(),
            texts,
            front: Front::new(),
            lines: [0; LINES],
            worlds,
            fractions,
        })
    }

    /// Puts the text of a number behind the row.
    #[inline(always)]
    fn text(&mut self, number: u32)
        requires { self.old.row.end + WIDTH ≤ ROW }
        ensures text { self.new.row.text ≡ self.old.row.text ++ spaced number }
        ensures end { self.new.row.end ≤ self.old.row.end + 11 }
    {
        let text = self.texts.text(number);
        self.row.text(&text);
    }

    /// Puts the text of a coordinate that is not below zero behind the row, after a space.
    #[inline(always)]
    fn coordinate(&mut self, value: i64)
        requires room { self.old.row.end + 27 ≤ ROW }
        requires some { pos 0 ≤ℤ value }
        requires size { unsigned_abs value < 2 ^ 40 }
        ensures text { self.new.row.text ≡ self.old.row.text ++ 32 ∷ coordinate_text value }
        ensures end { self.new.row.end ≤ self.old.row.end + 25 }
    {
        let size = value.unsigned_abs();
        self.text((size / 8192) as u32);
        self.row.fraction(self.fractions.text(size % 8192));
    }

    /// Puts the marker of a node behind the row, after a space.
    #[inline(always)]
    fn marker(&mut self, level: bool)
        requires { self.old.row.end + 2 ≤ ROW }
        ensures text { self.new.row.text ≡ self.old.row.text ++ 32 ∷ marker_text level }
        ensures end { self.new.row.end ≡ self.old.row.end + 2 }
    {
        self.row.byte(b' ');
        self.row.byte(if level { b'1' } else { b'0' });
    }

    /// Puts the text of a coordinate on axis `number` of the volume's own units behind the row, after a space.
    #[inline(always)]
    fn own_coordinate(&mut self, number: u64, axis: &Axis, step: u32, coordinate: i64)
        requires number { number < 3 }
        requires axis { IsAxis axis.now }
        requires near { unsigned_abs (pos step *ℤ coordinate) ≤ 8192 * 9000 }
        requires room { self.old.row.end + 48 ≤ ROW }
        ensures text { self.new.row.text ≡ self.old.row.text ++ 32 ∷ world_text (world_value_lem axis.now step coordinate) }
        ensures end { self.new.row.end ≤ self.old.row.end + 44 }
    {
        let value = world_value(axis, step, coordinate);
        let place = place_of(number, coordinate);
        self.row
            .world(self.worlds.text(&mut self.line, place, value));
    }

    // The line of a node in the volume's own units.
    fn own_line(
        &mut self,
        out: &mut Vec<u8>,
        number: u32,
        place: Place,
        axes: &[Axis; 3],
        step: u32,
        level: bool,
    ) -> Result<(), NoMemory>
        requires axes { AreAxes axes.now }
        requires x { unsigned_abs (pos step *ℤ place.x) ≤ 8192 * 9000 }
        requires y { unsigned_abs (pos step *ℤ place.y) ≤ 8192 * 9000 }
        requires z { unsigned_abs (pos step *ℤ place.z) ≤ 8192 * 9000 }
        ensures text { OnOk result (out.new.items ≡ out.old.items ++ node_line_lem (record { step = step; world = Some axes.now }) (number, record { place = place; level = level })) }
        ensures unchanged { OnErr result (out.new.items ≡ out.old.items) }
    {
        self.row.begin(&mut self.front, u64::from(number));
        self.own_coordinate(0, &axes[0], step, place.x);
        self.own_coordinate(1, &axes[1], step, place.y);
        self.own_coordinate(2, &axes[2], step, place.z);
        self.marker(level);
        self.row.byte(b'\n');
        self.row.append_to(out)
    }

    // The line of a node in index units.
    fn index_line(
        &mut self,
        out: &mut Vec<u8>,
        number: u32,
        place: Place,
        step: u32,
        level: bool,
    ) -> Result<(), NoMemory>
        requires x { unsigned_abs (pos step *ℤ place.x) < 2 ^ 40 }
        requires y { unsigned_abs (pos step *ℤ place.y) < 2 ^ 40 }
        requires z { unsigned_abs (pos step *ℤ place.z) < 2 ^ 40 }
        ensures text { OnOk result (out.new.items ≡ out.old.items ++ node_line_lem (record { step = step; world = None }) (number, record { place = place; level = level })) }
        ensures unchanged { OnErr result (out.new.items ≡ out.old.items) }
    {
        let x = stepped(step, place.x);
        let y = stepped(step, place.y);
        let z = stepped(step, place.z);
        if x < 0 || y < 0 || z < 0 {
            return node_line(out, number, place, Frame { step, world: None }, level);
        }
        self.row.begin(&mut self.front, u64::from(number));
        self.coordinate(x);
        self.coordinate(y);
        self.coordinate(z);
        self.marker(level);
        self.row.byte(b'\n');
        self.row.append_to(out)
    }

    /// Appends the line of a node: its number, its place in a frame, and 1 where it is a level node, else 0.
    pub fn node_line(
        &mut self,
        out: &mut Vec<u8>,
        number: u32,
        place: Place,
        frame: &Frame,
        level: bool,
    ) -> Result<(), NoMemory>
        requires { IsPrintable frame.now place }
        ensures text { OnOk result (out.new.items ≡ out.old.items ++ node_line_lem frame.now (number, record { place = place; level = level })) }
        ensures unchanged { OnErr result (out.new.items ≡ out.old.items) }
    {
        match &frame.world {
            None => self.index_line(out, number, place, frame.step, level),
            Some(axes) => self.own_line(out, number, place, axes, frame.step, level),
        }
    }

    /// Appends the lines of tetrahedra, which are numbered from `number` on, and their nodes from `first` on.
    /// Where memory runs out, the first lines may stand there.
    pub fn ele_lines(
        &mut self,
        out: &mut Vec<u8>,
        number: u64,
        first: u32,
        tets: &[[u32; 4]],
    ) -> Result<(), NoMemory>
        requires numbers { number + length tets.now < 2 ^ 64 }
        requires nodes { All (All (λ n. first + n < 2 ^ 32)) tets.now }
        ensures { OnOk result (out.new.items ≡ out.old.items ++ ele_lines_lem number (map (renumbered first) tets.now)) }
    {
        let mut end = 0;
        for n in 0..tets.len() {
            let at = make_room(out, &self.lines, end)?;
            end = put_line(
                &mut self.lines,
                at,
                &mut self.front,
                &mut self.texts,
                number + n as u64,
                first,
                tets[n],
            );
        }
        append(out, &self.lines, end)
    }

    /// Appends the lines of the six tetrahedra round a vertex, which have it and three of seven others as nodes, and are
    /// numbered from `number` on, and their nodes from `first` on.
    pub fn star_lines(
        &mut self,
        out: &mut Vec<u8>,
        number: u64,
        first: u32,
        own: u32,
        others: &[u32; 7],
    ) -> Result<(), NoMemory>
        requires numbers { number + 6 ≤ 2 ^ 64 }
        requires own { first + own < 2 ^ 32 }
        requires others { All (λ n. first + n < 2 ^ 32) others.now }
        ensures { OnOk result (out.new.items ≡ out.old.items ++ ele_lines_lem number (map (renumbered first) (star_tets own others.now))) }
    {
        let [a, b, c, d, e, f, g] = *others;
        let own = self.texts.text(first + own);
        let others = [
            self.texts.text(first + a),
            self.texts.text(first + b),
            self.texts.text(first + c),
            self.texts.text(first + d),
            self.texts.text(first + e),
            self.texts.text(first + f),
            self.texts.text(first + g),
        ];
        let end = put_star(&mut self.lines, &mut self.front, number, &own, &others);
        append(out, &self.lines, end)
    }
}
