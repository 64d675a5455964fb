ghost use Rattle.std.specs.Prelude.{◌≡◌, ◌+◌, ◌<◌, ◌≤◌, [], ◌++◌, length, slice_index_or, take};
ghost use Rattle.node_ele_write.specs.Texts.{spaced};

use itoa::write_digits;
use st_base::NoMemory;
use std::alloc::Global;
use std::marker::Model;
use std::simd::prelude::*;

/// A space and at most ten digits, a byte that says how many bytes these are, and the number.
pub const WIDTH: usize = 16;

/// Where that byte stands.
const LENGTH: usize = 11;

/// How many texts are held.
const SLOTS: u32 = 1 << 16;

/// A number as text behind a space, its length, and the number, as they are held.
#[derive(Clone, Copy)]
struct Slot {
    bytes: [u8; WIDTH],
}

impl Model for Slot {
    ghost use Rattle.node_ele_write.specs.Texts.{IsText, NumberText, last_word};

    ghost Value = { NumberText };

    ghost view = { λ t. record { bytes = t.bytes; number = last_word t.bytes } };

    ghost invariant = { λ t. IsText (record { bytes = t.bytes; number = last_word t.bytes }) };

    ghost inverse = { λ v. record { bytes = v.bytes } };
}

impl Slot {
    // The text of a number.
    fn new(number: u32) -> Slot
        ensures { result.number ≡ number }
    {
        let mut scratch = [0; LENGTH + WIDTH];
        let start = write_digits(u64::from(number), &mut scratch, LENGTH) - 1;
        scratch[start] = b' ';
        let mut bytes = [0; WIDTH];
        bytes.copy_from_slice(&scratch[start..start + WIDTH]);
        bytes[LENGTH] = (LENGTH - start) as u8;
        let [a, b, c, d] = number.to_le_bytes();
        bytes[12] = a;
        bytes[13] = b;
        bytes[14] = c;
        bytes[15] = d;
        Slot { bytes }
    }

    // The number.
    #[inline(always)]
    fn number(&self) -> u32
        ensures { result ≡ self.now.number }
    {
        u32::from_le_bytes([
            self.bytes[12],
            self.bytes[13],
            self.bytes[14],
            self.bytes[15],
        ])
    }

    // The text by itself.
    #[inline(always)]
    fn text(&self) -> Text
        ensures { result.number ≡ self.now.number }
    {
        Text {
            bytes: u8x16::from_slice(&self.bytes),
            len: self.bytes[LENGTH] as usize,
        }
    }
}

/// A number as text behind a space. It is the first `len` of sixteen bytes.
#[derive(Drop)]
pub struct Text {
    bytes: u8x16,
    len: usize,
}

impl Model for Text {
    ghost use Rattle.node_ele_write.specs.Texts.{IsRead, NumberText, last_word};

    ghost Value = { NumberText };

    ghost view = { λ t. record { bytes = t.bytes; number = last_word t.bytes } };

    ghost invariant = { λ t. IsRead t.bytes t.len };
}

impl Text {
    /// Puts the text into a buffer from `end` on, and answers where it ends.
    #[inline(always)]
    pub fn put(&self, bytes: &mut [u8], end: usize) -> usize
        requires { end + WIDTH ≤ length bytes.old }
        ensures text { take result bytes.new ≡ take end bytes.old ++ spaced self.now.number }
        ensures grows { end ≤ result }
        ensures end { result ≤ end + 11 }
    {
        self.bytes.copy_to_slice(&mut bytes[end..end + WIDTH]);
        end + self.len
    }
}

/// Texts of numbers that were asked for, each where its number has its place; a number that comes again
/// soon is not made a text again. There are always [`SLOTS`] texts.
#[derive(Drop)]
pub struct Texts {
    slots: Vec<Slot>,
}

impl Model for Texts {
    ghost use Rattle.std.specs.Prelude.{List, length, ◌≡◌};
    ghost use Rattle.node_ele_write.specs.Texts.{NumberText};
    ghost use Rattle.node_ele_write.specs.declared.texts.TheConstants.{SLOTS};

    ghost Value = { List NumberText };

    ghost view = { λ t. t.slots.items };

    ghost invariant = { λ t. length t.slots.items ≡ SLOTS };
}

impl Texts {
    /// Room for texts.
    pub fn new(alloc: Global) -> Result<Texts, NoMemory> {
        let Ok(slots) = vec![in alloc; Slot::new(0); SLOTS as usize] else {
            return Err(NoMemory);
        };
        Ok(Texts { slots })
    }

    // Puts the text of a number at its place.
    #[inline(never)]
    fn renew(&mut self, at: usize, number: u32)
        requires { at < SLOTS }
        ensures { (slice_index_or self.new at (record { bytes = []; number = 0 })).number ≡ number }
    {
        self.slots[at] = Slot::new(number);
    }

    /// The text of a number.
    #[inline(always)]
    pub fn text(&mut self, number: u32) -> Text
        ensures { result.number ≡ number }
    {
        let at = (number % SLOTS) as usize;
        if self.slots[at].number() != number {
            self.renew(at, number);
        }
        self.slots[at].text()
    }
}
