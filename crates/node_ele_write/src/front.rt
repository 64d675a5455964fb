ghost use Rattle.std.specs.Prelude.{◌≡◌, ◌+◌, ◌*◌, ◌^◌, ◌<◌, ◌≤◌, ◌++◌, length, decimal, take};

use itoa::write_digits;
use std::marker::Model;
use std::simd::prelude::*;

/// The bytes that are copied.
const WIDTH: usize = 32;

/// No number of 64 bits has more digits.
const DIGITS: usize = 20;

/// The digits of a number before its last, which ten numbers in a row share.
///
/// They are the first `len` of the bytes, at most 19, and the number is ten times `tens` and the last digit.
#[derive(Drop)]
pub struct Front {
    bytes: u8x32,
    len: usize,
    tens: u64,
}

impl Model for Front {
    ghost use Rattle.node_ele_write.specs.Texts.{FrontText, IsFront};

    ghost Value = { FrontText };

    ghost view = { λ f. record { bytes = f.bytes; len = f.len; tens = f.tens } };

    ghost invariant = { λ f. IsFront (record { bytes = f.bytes; len = f.len; tens = f.tens }) };
}

impl Front {
    /// That of numbers below ten.
    pub fn new() -> Front
        ensures { result.tens ≡ 0 }
    {
        Front {
            bytes: u8x32::splat(0),
            len: 0,
            tens: 0,
        }
    }

    /// That of other numbers.
    fn of_tens(tens: u64) -> Front
        requires some { 0 < tens }
        requires small { 10 * tens < 2 ^ 64 }
        ensures { result.tens ≡ tens }
    {
        let mut scratch = [0; DIGITS + WIDTH];
        let start = write_digits(tens, &mut scratch, DIGITS);
        Front {
            bytes: u8x32::from_slice(&scratch[start..]),
            len: DIGITS - start,
            tens,
        }
    }

    // Turns to numbers with other digits before their last.
    #[inline(never)]
    fn turn(&mut self, tens: u64)
        requires { 10 * tens < 2 ^ 64 }
        ensures { self.new.tens ≡ tens }
    {
        *self = if tens == 0 {
            Front::new()
        } else {
            Front::of_tens(tens)
        };
    }

    /// Turns to a number, and answers its last digit.
    #[inline(always)]
    pub fn begin(&mut self, number: u64) -> u8
        ensures digit { result < 10 }
        ensures number { 10 * self.new.tens + result ≡ number }
    {
        let tens = number / 10;
        if tens != self.tens {
            self.turn(tens);
        }
        (number % 10) as u8
    }

    /// Turns from the number whose last digit is `digit` to the next, and answers the last digit of this.
    #[inline(always)]
    pub fn next(&mut self, digit: u8) -> u8
        requires digit { digit < 10 }
        requires small { 10 * self.old.tens + digit + 1 < 2 ^ 64 }
        ensures digit { result < 10 }
        ensures number { 10 * self.new.tens + result ≡ 10 * self.old.tens + digit + 1 }
    {
        if digit < 9 {
            return digit + 1;
        }
        self.turn(self.tens + 1);
        0
    }

    /// Puts the number whose last digit is `digit` into a buffer from `end` on, and answers where it ends.
    #[inline(always)]
    pub fn put_digit(&self, bytes: &mut [u8], end: usize, digit: u8) -> usize
        requires digit { digit < 10 }
        requires small { 10 * self.now.tens + digit < 2 ^ 64 }
        requires room { end + WIDTH ≤ length bytes.old }
        ensures text { take result bytes.new ≡ take end bytes.old ++ decimal (10 * self.now.tens + digit) }
        ensures end { result ≤ end + DIGITS }
    {
        self.bytes.copy_to_slice(&mut bytes[end..end + WIDTH]);
        let last = end + self.len;
        bytes[last] = b'0' + digit;
        last + 1
    }

    /// Puts a number into a buffer from `end` on, and answers where it ends.
    #[inline(always)]
    pub fn put(&mut self, bytes: &mut [u8], end: usize, number: u64) -> usize
        requires { end + WIDTH ≤ length bytes.old }
        ensures text { take result bytes.new ≡ take end bytes.old ++ decimal number }
        ensures end { result ≤ end + DIGITS }
    {
        let digit = self.begin(number);
        self.put_digit(bytes, end, digit)
    }
}
