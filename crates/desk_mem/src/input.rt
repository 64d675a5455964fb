ghost use Rattle.std.specs.Prelude.{◌≡◌, ◌+◌, ◌<◌, ◌≤◌, ◌↔◌, ◌++◌, length, take, drop, true, false, Some, None, OnErr, IfOk, IfSome, IsErr, IsSomeAnd, vec_len};
ghost use Rattle.std.specs.Io.{ReadsAtMost};
ghost use Rattle.std.specs.Io.KnownBytes.{ReadConsumes};
ghost use Rattle.st_base.specs.Causes.{HasCause, Rose};

use st_base::Failed;
use std::alloc::Global;

/// The open input of a desk in memory, and where it is to fail.
///
/// The next byte is one of the bytes, or stands at their end.
#[derive(Drop)]
pub struct MemInput {
    pub is_open: bool,
    pub bytes: Vec<u8>,
    /// The place of the next byte.
    pub at: usize,
    pub faults: u64,
    /// Reads fail once this many bytes were given.
    pub limit: Option<usize>,
    pub refuse_open: bool,
    pub ghost at_within: { at ≤ vec_len bytes },
}

/// A count of faults after one more.
pub fn raised(count: u64) -> u64
    ensures later { count ≤ result }
    ensures rose { Rose count result }
{
    count.saturating_add(1)
}

/// Puts `count` bytes from a place on into the first places.
pub fn move_bytes(bytes: &[u8], at: usize, into: &mut [u8], count: usize)
    requires from { at + count ≤ length bytes.now }
    requires room { count ≤ length into.old }
    ensures { drop at bytes.now ≡ take count into.new ++ drop (at + count) bytes.now }
{
    into[..count].copy_from_slice(&bytes[at..at + count]);
}

impl MemInput {
    ghost use Rattle.desk_mem.specs.Parts.{input_state};

    /// No open input, and nothing that makes it fail.
    pub fn new(alloc: Global) -> MemInput
        ensures closed { result.is_open ≡ false }
        ensures faults { result.faults ≡ 0 }
        ensures no_limit { result.limit ≡ None }
        ensures not_refused { result.refuse_open ≡ false }
    {
        MemInput {
            is_open: false,
            bytes: Vec::new(alloc),
            at: 0,
            faults: 0,
            limit: None,
            refuse_open: false,
        }
    }

    /// Makes these bytes the open input.
    pub fn open(&mut self, bytes: Vec<u8>)
        ensures is_open { self.new.is_open ≡ true }
        ensures left { (input_state self.new).left ≡ Some bytes.items }
        ensures faults { self.new.faults ≡ self.old.faults }
    {
        self.bytes = bytes;
        self.at = 0;
        self.is_open = true;
    }

    /// One more fault.
    pub fn fail(&mut self) -> Failed
        ensures later { self.old.faults ≤ self.new.faults }
        ensures rose { Rose self.old.faults self.new.faults }
        ensures is_open { self.new.is_open ≡ self.old.is_open }
        ensures left { (input_state self.new).left ≡ (input_state self.old).left }
    {
        self.faults = raised(self.faults);
        Failed
    }

    /// Moves at most `most` bytes, and fails exactly where the limit is reached.
    pub fn read(&mut self, into: &mut [u8], most: usize) -> Result<usize, Failed>
        requires is_open { self.old.is_open ≡ true }
        requires room { 0 < length into.old }
        requires some { 0 < most }
        ensures bound { ReadsAtMost result into.new }
        ensures most { IfOk result (λ n. n ≤ most) }
        ensures bytes { ReadConsumes (input_state self.old).left (input_state self.new).left result into.new }
        ensures is_open { self.new.is_open ≡ true }
        ensures cause { HasCause self.old.faults self.new.faults result }
        ensures fails { IsErr result ↔ IsSomeAnd self.old.limit (λ n. n ≤ self.old.at) }
        ensures within { IfOk result (λ _. IfSome self.old.limit (λ n. self.new.at ≤ n)) }
    {
        let left = self.bytes.len() - self.at;
        let mut count = left.min(into.len()).min(most);
        if let Some(limit) = self.limit {
            if limit <= self.at {
                return Err(self.fail());
            }
            count = count.min(limit - self.at);
        }
        move_bytes(&self.bytes, self.at, into, count);
        self.at += count;
        Ok(count)
    }
}
