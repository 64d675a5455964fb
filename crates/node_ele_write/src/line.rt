ghost use Rattle.std.specs.Prelude.{◌≡◌, ◌+◌, ◌*◌, ◌<◌, ◌≤◌, ◌^◌, [], ◌∷◌, ◌++◌, length, take, drop, decimal, unsigned_abs, OnOk, OnErr};
ghost use Rattle.mesh_texts.specs.Coordinates.{coordinate_text, padded_decimal};

use itoa::write_digits;
use st_base::NoMemory;
use std::marker::Model;

/// No line has more bytes.
pub const ROOM: usize = 160;

/// How many bytes a copy of a short line has room for.
pub const COPY: usize = 48;

/// The fraction 1/8192 in units of the thirteenth decimal.
pub const FRACTION: u64 = 1_220_703_125;

/// One in units of the thirteenth decimal.
pub const ONE: u64 = 10_000_000_000_000;

/// A text of at most [`ROOM`] bytes that grows at its front. Contracts see its bytes.
///
/// It is the bytes from `start` to the end of the buffer, and `start` is at most its length.
#[derive(Drop)]
pub struct Line {
    bytes: [u8; ROOM],
    start: usize,
}

impl Model for Line {
    ghost use Rattle.std.specs.Prelude.{List, ℕ, drop, ◌≤◌};
    ghost use Rattle.node_ele_write.specs.declared.line.TheConstants.{ROOM};

    ghost Value = { List ℕ };

    ghost view = { λ line. drop line.start line.bytes };

    ghost invariant = { λ line. line.start ≤ ROOM };
}

impl Line {
    /// An empty line.
    pub fn new() -> Line
        ensures { result ≡ [] }
    {
        Line {
            bytes: [0; ROOM],
            start: ROOM,
        }
    }

    /// Makes the line empty again.
    pub fn clear(&mut self)
        ensures { self.new ≡ [] }
    {
        self.start = ROOM;
    }

    /// Puts a byte in front.
    pub fn byte(&mut self, byte: u8)
        requires { length self.old < ROOM }
        ensures { self.new ≡ byte ∷ self.old }
    {
        self.start -= 1;
        self.bytes[self.start] = byte;
    }

    /// Puts a number in front.
    pub fn number(&mut self, number: u64)
        requires { length self.old + 20 ≤ ROOM }
        ensures text { self.new ≡ decimal number ++ self.old }
        ensures any { length self.new ≤ length self.old + 20 }
        ensures small { number < 2 ^ 32 → length self.new ≤ length self.old + 10 }
    {
        self.start = write_digits(number, &mut self.bytes, self.start);
    }

    /// Drops the first byte.
    pub fn drop_first(&mut self)
        requires { 0 < length self.old }
        ensures { self.new ≡ drop 1 self.old }
    {
        self.start += 1;
    }

    // Another first byte.
    fn replace_first(&mut self, byte: u8)
        requires { 0 < length self.old }
        ensures { self.new ≡ byte ∷ drop 1 self.old }
    {
        self.bytes[self.start] = byte;
    }

    // Puts a point and the thirteen decimals of `parts`/8192 in front.
    fn fraction(&mut self, parts: u64)
        requires part { parts < 8192 }
        requires room { length self.old + 20 ≤ ROOM }
        ensures text { self.new ≡ 46 ∷ (padded_decimal 13 (parts * 5 ^ 13) ++ self.old) }
        ensures length { length self.new ≡ length self.old + 14 }
    {
        self.number(ONE + parts * FRACTION);
        self.replace_first(b'.');
    }

    /// Puts `value`/8192 with 13 decimals in front.
    pub fn coordinate(&mut self, value: i64)
        requires size { unsigned_abs value < 2 ^ 40 }
        requires room { length self.old + 35 ≤ ROOM }
        ensures text { self.new ≡ coordinate_text value ++ self.old }
        ensures length { length self.new ≤ length self.old + 25 }
    {
        let size = value.unsigned_abs();
        self.fraction(size % 8192);
        self.number(size / 8192);
        if value < 0 {
            self.byte(b'-');
        }
    }

    /// Copies the line to the front of a buffer, and answers how long it is.
    pub fn copy_to(&self, to: &mut [u8; COPY]) -> usize
        requires { length self.now ≤ COPY }
        ensures text { take result to.new ≡ self.now }
        ensures length { result ≡ length self.now }
    {
        let len = ROOM - self.start;
        to[..len].copy_from_slice(&self.bytes[self.start..]);
        len
    }

    /// Puts the line behind a text, or leaves the text as it is.
    pub fn append_to(&self, out: &mut Vec<u8>) -> Result<(), NoMemory>
        ensures ok { OnOk result (out.new.items ≡ out.old.items ++ self.now) }
        ensures unchanged { OnErr result (out.new.items ≡ out.old.items) }
    {
        match out.extend_from_slice(&self.bytes[self.start..]) {
            Ok(()) => Ok(()),
            Err(_) => Err(NoMemory),
        }
    }
}
