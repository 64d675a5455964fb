ghost use Rattle.std.specs.Prelude.{◌≡◌, ◌+◌, ◌*◌, ◌^◌, ◌≤◌, ◌<◌, length, IfOk};

use crate::line::{FRACTION, ONE};
use itoa::write_digits;
use st_base::NoMemory;
use std::alloc::Global;
use std::marker::Model;

/// The bytes of a fraction: a point and thirteen decimals, and two more, which make it two machine words.
pub const FRACTION_WIDTH: usize = 16;

/// A point and thirteen decimals.
pub const DECIMALS: usize = 14;

/// How many fractions there are.
const PARTS: u64 = 8192;

/// A point and the thirteen decimals of `parts`/8192: the first 14 bytes are these, and `parts` is below 8192.
#[derive(Clone, Copy)]
pub struct Fraction {
    bytes: [u8; FRACTION_WIDTH],
    parts: u16,
}

impl Model for Fraction {
    ghost use Rattle.node_ele_write.specs.Texts.{FractionText, IsFraction};

    ghost Value = { FractionText };

    ghost view = { λ f. record { bytes = f.bytes; parts = f.parts } };

    ghost invariant = { λ f. IsFraction (record { bytes = f.bytes; parts = f.parts }) };

    ghost inverse = { λ v. record { bytes = v.bytes; parts = v.parts } };
}

impl Fraction {
    ghost use Rattle.node_ele_write.specs.Texts.{IsFraction};

    /// The text of `parts`/8192.
    pub fn new(parts: u64) -> Fraction
        requires { parts < 8192 }
        ensures { result.parts ≡ parts }
    {
        let mut bytes = [0; FRACTION_WIDTH];
        let _start = write_digits(ONE + parts * FRACTION, &mut bytes, DECIMALS);
        bytes[0] = b'.';
        Fraction {
            bytes,
            parts: parts as u16,
        }
    }

    /// How many parts of 8192.
    pub fn parts(&self) -> u64
        ensures { result ≡ self.now.parts }
    {
        u64::from(self.parts)
    }

    /// The bytes, of which the first 14 are the text.
    #[inline(always)]
    pub fn bytes(&self) -> &[u8; FRACTION_WIDTH]
        ensures bytes { result.now ≡ self.now.bytes }
        ensures text { IsFraction self.now }
    {
        &self.bytes
    }
}

/// The texts of the fractions that were asked for. There are always [`PARTS`] texts.
#[derive(Drop)]
pub struct Fractions {
    slots: Vec<Fraction>,
}

impl Model for Fractions {
    ghost use Rattle.std.specs.Prelude.{List, length, ◌≡◌};
    ghost use Rattle.node_ele_write.specs.Texts.{FractionText};
    ghost use Rattle.node_ele_write.specs.declared.fractions.TheConstants.{PARTS};

    ghost Value = { List FractionText };

    ghost view = { λ f. f.slots.items };

    ghost invariant = { λ f. length f.slots.items ≡ PARTS };
}

impl Fractions {
    /// Room for all fractions.
    pub fn new(alloc: Global) -> Result<Fractions, NoMemory> {
        let Ok(slots) = vec![in alloc; Fraction::new(0); PARTS as usize] else {
            return Err(NoMemory);
        };
        Ok(Fractions { slots })
    }

    /// The text of `parts`/8192.
    #[inline(always)]
    pub fn text(&mut self, parts: u64) -> &Fraction
        requires { parts < 8192 }
        ensures { result.now.parts ≡ parts }
    {
        if self.slots[parts as usize].parts() != parts {
            self.slots[parts as usize] = Fraction::new(parts);
        }
        &self.slots[parts as usize]
    }
}
