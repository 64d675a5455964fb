ghost use Rattle.std.specs.Prelude.{◌≡◌, ◌<◌, ◌≤◌, ◌^◌, unsigned_abs};

use crate::line::{COPY, Line};
use crate::world::put_world;
use st_base::NoMemory;
use std::alloc::Global;
use std::marker::Model;

/// How many texts are held.
pub const PLACES: usize = 12_288;

/// A coordinate in units of 10^-31 as text behind a space: the first `len` of the bytes, at most 44.
#[derive(Clone, Copy)]
pub struct WorldText {
    bytes: [u8; COPY],
    len: u8,
    value: i128,
}

impl Model for WorldText {
    ghost use Rattle.node_ele_write.specs.Texts.{CoordinateText, IsCoordinate};

    ghost Value = { CoordinateText };

    ghost view = { λ t. record { bytes = t.bytes; len = t.len; value = t.value } };

    ghost invariant = { λ t. IsCoordinate (record { bytes = t.bytes; len = t.len; value = t.value }) };

    ghost inverse = { λ v. record { bytes = v.bytes; len = v.len; value = v.value } };
}

impl WorldText {
    ghost use Rattle.node_ele_write.specs.Texts.{IsCoordinate};

    /// The text of a coordinate, made in a line.
    pub fn new(line: &mut Line, value: i128) -> WorldText
        requires { unsigned_abs value < 10 ^ 38 }
        ensures { result.value ≡ value }
    {
        line.clear();
        put_world(line, value);
        line.byte(b' ');
        let mut bytes = [0; COPY];
        let len = line.copy_to(&mut bytes);
        WorldText {
            bytes,
            len: len as u8,
            value,
        }
    }

    /// The coordinate.
    #[inline(always)]
    pub fn value(&self) -> i128
        ensures { result ≡ self.now.value }
    {
        self.value
    }

    /// How many bytes the text has.
    #[inline(always)]
    pub fn len(&self) -> usize
        ensures len { result ≡ self.now.len }
        ensures text { IsCoordinate self.now }
    {
        self.len as usize
    }

    /// The bytes, of which the first are the text.
    #[inline(always)]
    pub fn bytes(&self) -> &[u8; COPY]
        ensures { result.now ≡ self.now.bytes }
    {
        &self.bytes
    }
}

/// Texts of coordinates that were asked for, each where its caller has a place for it; a coordinate that comes again
/// at its place is not made a text again. There are always [`PLACES`] texts.
#[derive(Drop)]
pub struct WorldTexts {
    slots: Vec<WorldText>,
}

impl Model for WorldTexts {
    ghost use Rattle.std.specs.Prelude.{List, length, ◌≡◌};
    ghost use Rattle.node_ele_write.specs.Texts.{CoordinateText};
    ghost use Rattle.node_ele_write.specs.declared.world_texts.TheConstants.{PLACES};

    ghost Value = { List CoordinateText };

    ghost view = { λ t. t.slots.items };

    ghost invariant = { λ t. length t.slots.items ≡ PLACES };
}

impl WorldTexts {
    /// Room for texts.
    pub fn new(alloc: Global) -> Result<WorldTexts, NoMemory> {
        let mut line = Line::new();
        let Ok(slots) = vec![in alloc; WorldText::new(&mut line, 0); PLACES] else {
            return Err(NoMemory);
        };
        Ok(WorldTexts { slots })
    }

    /// The text of a coordinate, which is made in a line where it is not at its place.
    #[inline(always)]
    pub fn text(&mut self, line: &mut Line, place: usize, value: i128) -> &WorldText
        requires place { place < PLACES }
        requires size { unsigned_abs value < 10 ^ 38 }
        ensures { result.now.value ≡ value }
    {
        if self.slots[place].value() != value {
            self.slots[place] = WorldText::new(line, value);
        }
        &self.slots[place]
    }
}
