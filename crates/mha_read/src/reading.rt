ghost use Rattle.std.specs.Prelude.{◌≡◌, ◌≢◌, ◌<◌, ◌≤◌, List, ℕ, true, Some, Err, IfOk, IsErrOf};
ghost use Rattle.formats.specs.Frames.{AreAxes};
ghost use Rattle.st_base.specs.Causes.{Rose};
ghost use Rattle.st_base.specs.Frames.{OnlyInput};
ghost use Rattle.mha_read.specs.LinesRead.{LinesRead};
ghost use Rattle.mha_read.specs.NextLine.{NextLine};
ghost use Rattle.mha_read.specs.RawSizes.{AreRawSizes};
ghost use Rattle.mha_read.specs.Told.{Answers, PairsRead};

use crate::lines::{LineFault, read_line};
use crate::pairs::{Pairs, Turn, take_line};
use crate::support::judge;
use st_base::{Desk, Head, HeadFault, NoMemory};
use std::alloc::Global;

// The most bytes of a head.
const LIMIT: usize = 65536;

// Reads the line that begins at a place, and answers the place behind it.
fn next_line<D: Desk>(desk: &mut D, line: &mut Vec<u8>, place: usize) -> Result<usize, HeadFault>
    requires is_open { (D.input desk.old).is_open ≡ true }
    requires within { place ≤ 65536 }
    ensures told { (text : List ℕ) (done : List (List ℕ)) →
        LinesRead text place (D.input desk.old).left done →
        NextLine place result text done line.new.items (D.input desk.new).left }
    ensures later_place { IfOk result (λ next. place < next) }
    ensures within { IfOk result (λ next. next ≤ 65536) }
    ensures fault { IsErrOf result HeadFault.ReadFault →
        Rose (D.input desk.old).faults (D.input desk.new).faults }
    ensures none { result ≢ Err HeadFault.ReadFault →
        (D.input desk.new).faults ≡ (D.input desk.old).faults }
    ensures later { (D.input desk.old).faults ≤ (D.input desk.new).faults }
    ensures is_open { (D.input desk.new).is_open ≡ true }
    ensures apart { OnlyInput D.Desk desk.old desk.new }
{
    match read_line(desk, line, LIMIT - place) {
        Ok(true) => Ok(place + line.len() + 1),
        Ok(false) => {
            if place + line.len() == LIMIT {
                Err(HeadFault::HeaderTooLong)
            } else {
                Err(HeadFault::HeadEnds)
            }
        }
        Err(LineFault::ReadFault) => Err(HeadFault::ReadFault),
        Err(LineFault::NoMemory) => Err(HeadFault::NoMemory),
    }
}

// Reads the lines up to the data line or a bad one, and keeps their pairs.
fn read_pairs<D: Desk>(alloc: Global, desk: &mut D) -> Result<Pairs, HeadFault>
    requires { (D.input desk.old).is_open ≡ true }
    ensures told { (text : List ℕ) → (D.input desk.old).left ≡ Some text →
        PairsRead result text (D.input desk.new).left }
    ensures fault { IsErrOf result HeadFault.ReadFault →
        Rose (D.input desk.old).faults (D.input desk.new).faults }
    ensures none { result ≢ Err HeadFault.ReadFault →
        (D.input desk.new).faults ≡ (D.input desk.old).faults }
    ensures later { (D.input desk.old).faults ≤ (D.input desk.new).faults }
    ensures is_open { (D.input desk.new).is_open ≡ true }
    ensures apart { OnlyInput D.Desk desk.old desk.new }
{
    let mut line = Vec::new(alloc);
    let mut pairs = Pairs::new(alloc);
    let mut place = 0usize;
    for _ in 0..LIMIT {
        let next = match next_line(desk, &mut line, place) {
            Ok(next) => next,
            Err(fault) => return Err(fault),
        };
        match take_line(&mut pairs, &line) {
            Ok(turn) => match turn {
                Turn::GoesOn => place = next,
                Turn::IsData => return Ok(pairs),
                Turn::IsBad => {
                    return Err(HeadFault::BadLine {
                        place: place as u64,
                    });
                }
            },
            Err(NoMemory) => return Err(HeadFault::NoMemory),
        }
    }
    Err(HeadFault::HeaderTooLong)
}

/// Reads the head of the open input, a byte at a time, up to the newline that ends the data line and
/// nothing after it, and at most 65,536 bytes.
///
/// A bad line is answered before all else, and is read up to its newline; then that there is no data
/// line, then the first key whose form is at fault, then the first key that is not supported.
/// ReadFault is answered where a read failed. The input stays open, and stands where the reading
/// stopped. The spacings and offsets of the axes are read where `world` is set, and else they are 1 and 0.
pub fn read_head<D: Desk>(alloc: Global, desk: &mut D, world: bool) -> Result<Head, HeadFault>
    requires { (D.input desk.old).is_open ≡ true }
    ensures told { (text : List ℕ) → (D.input desk.old).left ≡ Some text →
        Answers world result text (D.input desk.new).left }
    ensures sizes { IfOk result (λ head. AreRawSizes head.raw) }
    ensures axes { IfOk result (λ head. AreAxes head.axes) }
    ensures fault { IsErrOf result HeadFault.ReadFault →
        Rose (D.input desk.old).faults (D.input desk.new).faults }
    ensures none { result ≢ Err HeadFault.ReadFault →
        (D.input desk.new).faults ≡ (D.input desk.old).faults }
    ensures later { (D.input desk.old).faults ≤ (D.input desk.new).faults }
    ensures is_open { (D.input desk.new).is_open ≡ true }
    ensures apart { OnlyInput D.Desk desk.old desk.new }
{
    match read_pairs(alloc, desk) {
        Ok(pairs) => judge(&pairs, world),
        Err(fault) => Err(fault),
    }
}
