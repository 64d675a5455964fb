ghost use Rattle.std.specs.Prelude.{◌≡◌, ◌+◌, ◌*◌, ◌^◌, ◌≤◌, ◌<◌, [], ◌∷◌, ◌++◌, decimal, OnOk, OnErr};
ghost use Rattle.mesh_texts.specs.Coordinates.{padded_decimal};
ghost use Rattle.mesh_texts.specs.Frames.{world_text};
ghost use Rattle.node_ele_write.specs.Texts.{spaced};

use crate::fractions::{DECIMALS, FRACTION_WIDTH, Fraction};
use crate::front::Front;
use crate::line::COPY;
use crate::texts::{Text, WIDTH};
use crate::world_texts::WorldText;
use st_base::NoMemory;
use std::marker::Model;

/// The bytes of a row: a number of 64 bits, two coordinates of the volume's own units, and what is copied of a third.
pub const ROW: usize = 156;

/// A line of numbers that grows at its end. Contracts see its bytes, and where they end in the buffer.
///
/// It is the first `end` bytes of the buffer.
#[derive(Drop)]
pub struct Row {
    bytes: [u8; ROW],
    end: usize,
}

impl Model for Row {
    ghost use Rattle.std.specs.Prelude.{take, ◌≤◌};
    ghost use Rattle.node_ele_write.specs.declared.row.TheConstants.{ROW};
    ghost use Rattle.node_ele_write.specs.Texts.{RowText};

    ghost Value = { RowText };

    ghost view = { λ row. record { text = take row.end row.bytes; end = row.end } };

    ghost invariant = { λ row. row.end ≤ ROW };
}

impl Row {
    /// An empty row.
    pub fn new() -> Row {
        Row {
            bytes: [0; ROW],
            end: 0,
        }
    }

    /// Begins the row anew with a number.
    #[inline(always)]
    pub fn begin(&mut self, front: &mut Front, number: u64)
        ensures text { self.new.text ≡ decimal number }
        ensures end { self.new.end ≤ 20 }
    {
        self.end = front.put(&mut self.bytes, 0, number);
    }

    /// Puts a byte at the end.
    #[inline(always)]
    pub fn byte(&mut self, byte: u8)
        requires { self.old.end < ROW }
        ensures text { self.new.text ≡ self.old.text ++ byte ∷ [] }
        ensures end { self.new.end ≡ self.old.end + 1 }
    {
        self.bytes[self.end] = byte;
        self.end += 1;
    }

    /// Puts a number behind a space at the end.
    #[inline(always)]
    pub fn text(&mut self, text: &Text)
        requires { self.old.end + WIDTH ≤ ROW }
        ensures text { self.new.text ≡ self.old.text ++ spaced text.now.number }
        ensures end { self.new.end ≤ self.old.end + 11 }
    {
        self.end = text.put(&mut self.bytes, self.end);
    }

    /// Puts a fraction at the end.
    #[inline(always)]
    pub fn fraction(&mut self, fraction: &Fraction)
        requires { self.old.end + FRACTION_WIDTH ≤ ROW }
        ensures text { self.new.text ≡ self.old.text ++ (46 ∷ padded_decimal 13 (fraction.now.parts * 5 ^ 13)) }
        ensures end { self.new.end ≡ self.old.end + DECIMALS }
    {
        self.bytes[self.end..self.end + FRACTION_WIDTH].copy_from_slice(fraction.bytes());
        self.end += DECIMALS;
    }

    /// Puts a coordinate behind a space at the end.
    #[inline(always)]
    pub fn world(&mut self, text: &WorldText)
        requires { self.old.end + COPY ≤ ROW }
        ensures text { self.new.text ≡ self.old.text ++ 32 ∷ world_text text.now.value }
        ensures end { self.new.end ≤ self.old.end + 44 }
    {
        self.bytes[self.end..self.end + COPY].copy_from_slice(text.bytes());
        self.end += text.len();
    }

    /// Puts the row behind a text, or leaves the text as it is.
    #[inline(always)]
    pub fn append_to(&self, out: &mut Vec<u8>) -> Result<(), NoMemory>
        ensures ok { OnOk result (out.new.items ≡ out.old.items ++ self.now.text) }
        ensures unchanged { OnErr result (out.new.items ≡ out.old.items) }
    {
        match out.extend_from_slice(&self.bytes[..self.end]) {
            Ok(()) => Ok(()),
            Err(_) => Err(NoMemory),
        }
    }
}
