ghost use Rattle.std.specs.Prelude.{◌≡◌, ◌<◌, ◌≤◌, ◌↔◌, ◌∷◌, ◌++◌, [], length, true, false, None, OnOk, OnErr, IfOk, IfSome, IsErr, IsSomeAnd, vec_len};
ghost use Rattle.std.specs.Io.{WritesAtMost};
ghost use Rattle.std.specs.Io.KnownBytes.{WriteAppends};
ghost use Rattle.st_base.specs.Causes.{HasCause, Rose};
ghost use Rattle.st_base.specs.Desk.{BeginsAs, SamePort};
ghost use Rattle.desk_mem.specs.Parts.{port_state, names_of};

use crate::input::raised;
use st_base::Failed;
use std::alloc::{AllocError, Global};

/// A port of a desk in memory, and where it is to fail.
#[derive(Drop)]
pub struct MemPort {
    pub is_open: bool,
    pub text: Vec<u8>,
    pub name: Option<Vec<u8>>,
    pub faults: u64,
    /// Writes fail once the text has this many bytes.
    pub limit: Option<usize>,
    pub refuse_open: bool,
    pub refuse_finish: bool,
}

/// A copy of the name at the end of the list, and another one as the answer.
pub fn note_name(
    alloc: Global,
    tried: &mut Vec<Vec<u8>>,
    name: &[u8],
) -> Result<Vec<u8>, AllocError>
    ensures ok { IfOk result (λ copy. copy.items ≡ name.now) }
    ensures noted { OnOk result (names_of tried.new.items ≡ names_of tried.old.items ++ name.now ∷ []) }
    ensures err { OnErr result (tried.new.items ≡ tried.old.items) }
{
    let copy = name.to_vec(alloc)?;
    tried.push(name.to_vec(alloc)?)?;
    Ok(copy)
}

impl MemPort {
    /// A port with no text and no name, and nothing that makes it fail.
    pub fn new(alloc: Global, is_open: bool) -> MemPort
        ensures is_open { result.is_open ≡ is_open }
        ensures text { result.text.items ≡ [] }
        ensures name { result.name ≡ None }
        ensures faults { result.faults ≡ 0 }
        ensures no_limit { result.limit ≡ None }
        ensures open_not_refused { result.refuse_open ≡ false }
        ensures finish_not_refused { result.refuse_finish ≡ false }
    {
        MemPort {
            is_open,
            text: Vec::new(alloc),
            name: None,
            faults: 0,
            limit: None,
            refuse_open: false,
            refuse_finish: false,
        }
    }

    /// One more fault.
    pub fn fail(&mut self) -> Failed
        ensures later { self.old.faults ≤ self.new.faults }
        ensures rose { Rose self.old.faults self.new.faults }
        ensures is_open { self.new.is_open ≡ self.old.is_open }
        ensures text { self.new.text ≡ self.old.text }
        ensures name { self.new.name ≡ self.old.name }
    {
        self.faults = raised(self.faults);
        Failed
    }

    /// Opens the port with an empty text, and notes the name.
    pub fn open(
        &mut self,
        alloc: Global,
        tried: &mut Vec<Vec<u8>>,
        name: &[u8],
    ) -> Result<(), Failed>
        ensures opened { OnOk result (self.new.is_open ≡ true) }
        ensures told { OnOk result (BeginsAs (port_state self.new) name.now) }
        ensures as_before { OnErr result (SamePort (port_state self.old) (port_state self.new)) }
        ensures tried { OnOk result (names_of tried.new.items ≡ names_of tried.old.items ++ name.now ∷ []) }
        ensures untried { OnErr result (tried.new.items ≡ tried.old.items) }
        ensures cause { HasCause self.old.faults self.new.faults result }
        ensures refused { self.old.refuse_open ≡ true → IsErr result }
    {
        if self.refuse_open {
            return Err(self.fail());
        }
        let Ok(copy) = note_name(alloc, tried, name) else {
            return Err(self.fail());
        };
        self.is_open = true;
        self.text.clear();
        self.name = Some(copy);
        Ok(())
    }

    /// Takes at most `most` bytes, and fails where the limit is reached or memory runs out.
    pub fn write(&mut self, bytes: &[u8], most: usize) -> Result<usize, Failed>
        requires { 0 < most }
        ensures bound { WritesAtMost result bytes.now }
        ensures some { 0 < length bytes.now → IfOk result (λ n. 0 < n) }
        ensures most { IfOk result (λ n. n ≤ most) }
        ensures text { WriteAppends (port_state self.old).text (port_state self.new).text result bytes.now }
        ensures is_open { self.new.is_open ≡ self.old.is_open }
        ensures name { self.new.name ≡ self.old.name }
        ensures cause { HasCause self.old.faults self.new.faults result }
        ensures fails { IsSomeAnd self.old.limit (λ n. n ≤ vec_len self.old.text) → IsErr result }
        ensures within { IfOk result (λ _. IfSome self.old.limit (λ n. vec_len self.new.text ≤ n)) }
    {
        let mut count = bytes.len().min(most);
        if let Some(limit) = self.limit {
            if limit <= self.text.len() {
                return Err(self.fail());
            }
            count = count.min(limit - self.text.len());
        }
        if self.text.extend_from_slice(&bytes[..count]).is_err() {
            return Err(self.fail());
        }
        Ok(count)
    }

    /// Closes the port, and fails exactly where that is refused.
    pub fn finish(&mut self) -> Result<(), Failed>
        ensures closed { self.new.is_open ≡ false }
        ensures text { self.new.text ≡ self.old.text }
        ensures name { self.new.name ≡ self.old.name }
        ensures cause { HasCause self.old.faults self.new.faults result }
        ensures refused { IsErr result ↔ (self.old.refuse_finish ≡ true) }
    {
        self.is_open = false;
        if self.refuse_finish {
            return Err(self.fail());
        }
        Ok(())
    }
}
