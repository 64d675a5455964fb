//! Turns the bytes of one sample of a .mha file into its number.
#![tactic(auto)]

ghost use Rattle.std.specs.Prelude.{◌≡◌, ◌≤◌, ◌≤ℤ◌, length, Bool};
ghost use Rattle.byteorder.specs.Endian.{twos_complement};
ghost use Rattle.formats.specs.Samples.{bytes_per_sample as sample_bytes, unsigned_number, sample_number};
ghost use Rattle.formats.specs.Volumes.{least_of, greatest_of};

use byteorder::{BigEndian, ByteOrder, LittleEndian};
use st_base::Kind;

/// How many bytes a sample has.
pub fn bytes_per_sample(kind: Kind) -> usize
    ensures value { result ≡ sample_bytes kind }
    ensures bound { result ≤ 4 }
{
    match kind {
        Kind::Uchar | Kind::Char => 1,
        Kind::Ushort | Kind::Short => 2,
        Kind::Uint | Kind::Int => 4,
    }
}

// One byte is the same number in both orders.
fn byte(bytes: &[u8]) -> u8
    requires { 1 ≤ length bytes.now }
    ensures { (big : Bool) → result ≡ unsigned_number big 1 bytes.now }
{
    bytes[0]
}

fn two_bytes(big: bool, bytes: &[u8]) -> u16
    requires { 2 ≤ length bytes.now }
    ensures { result ≡ unsigned_number big 2 bytes.now }
{
    if big {
        BigEndian::read_u16(bytes)
    } else {
        LittleEndian::read_u16(bytes)
    }
}

fn four_bytes(big: bool, bytes: &[u8]) -> u32
    requires { 4 ≤ length bytes.now }
    ensures { result ≡ unsigned_number big 4 bytes.now }
{
    if big {
        BigEndian::read_u32(bytes)
    } else {
        LittleEndian::read_u32(bytes)
    }
}

fn signed_byte(number: u8) -> i64
    ensures { result ≡ twos_complement 1 number }
{
    if number < 0x80 {
        i64::from(number)
    } else {
        i64::from(number) - 0x100
    }
}

fn signed_two(number: u16) -> i64
    ensures { result ≡ twos_complement 2 number }
{
    if number < 0x8000 {
        i64::from(number)
    } else {
        i64::from(number) - 0x1_0000
    }
}

fn signed_four(number: u32) -> i64
    ensures { result ≡ twos_complement 4 number }
{
    if number < 0x8000_0000 {
        i64::from(number)
    } else {
        i64::from(number) - 0x1_0000_0000
    }
}

/// The number that the first bytes are: two's complement where the type is signed, and the most
/// significant byte first where `big` says so.
///
/// ```rust
/// assert_eq!(rt; decode(Kind::Short, true, &[0xff, 0xfe]), -2);
/// assert_eq!(rt; decode(Kind::Ushort, false, &[0xff, 0xfe]), 65279);
/// ```
#[tactic(auto, unfolding(formats::specs::Samples::sample_number))]
pub fn decode(kind: Kind, big: bool, bytes: &[u8]) -> i64
    requires { sample_bytes kind ≤ length bytes.now }
    ensures value { result ≡ sample_number kind big bytes.now }
    ensures low { least_of kind ≤ℤ result }
    ensures high { result ≤ℤ greatest_of kind }
{
    match kind {
        Kind::Uchar => i64::from(byte(bytes)),
        Kind::Char => signed_byte(byte(bytes)),
        Kind::Ushort => i64::from(two_bytes(big, bytes)),
        Kind::Short => signed_two(two_bytes(big, bytes)),
        Kind::Uint => i64::from(four_bytes(big, bytes)),
        Kind::Int => signed_four(four_bytes(big, bytes)),
    }
}
