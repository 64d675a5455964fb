ghost use Rattle.std.specs.Prelude.{◌≡◌, ◌<◌, ◌==◌, List, ℕ, [], ◌∷◌, ◌++◌, length, slice_index_or, OnOk, OnErr};

use crate::NoMemory;
use std::alloc::Global;
use std::marker::Model;

/// The words of a command line, those after the program's name. Contracts see a list of byte lists.
#[derive(Drop)]
pub struct Words {
    alloc: Global,
    words: Vec<Vec<u8>>,
}

impl Model for Words {
    ghost use Rattle.std.specs.Prelude.{List, ℕ, map};

    ghost Value = { List (List ℕ) };

    ghost view = { λ w. map (λ v. v.items) w.words.items };
}

impl Words {
    /// No words.
    ///
    /// ```
    /// let mut words = Words::new(alloc);
    /// words.push(b"count")?;
    /// words.push(b"a.mha")?;
    /// ```
    pub fn new(alloc: Global) -> Words
        ensures { result ≡ [] }
    {
        Words {
            alloc,
            words: Vec::new(alloc),
        }
    }

    /// One more word at the end.
    pub fn push(&mut self, word: &[u8]) -> Result<(), NoMemory>
        ensures ok { OnOk result (self.new ≡ self.old ++ word.now ∷ []) }
        ensures err { OnErr result (self.new ≡ self.old) }
    {
        let Ok(copy) = word.to_vec(self.alloc) else {
            return Err(NoMemory);
        };
        if self.words.push(copy).is_err() {
            return Err(NoMemory);
        }
        Ok(())
    }

    /// How many words there are.
    pub fn len(&self) -> usize
        ensures { result ≡ length self.now }
    {
        self.words.len()
    }

    /// Whether there are none.
    pub fn is_empty(&self) -> bool
        ensures { result ≡ (length self.now == 0) }
    {
        self.words.is_empty()
    }

    /// Word `n`, from 0.
    pub fn word(&self, n: usize) -> &[u8]
        requires { n < length self.now }
        ensures { result.now ≡ slice_index_or self.now n [] }
    {
        self.words[n].as_slice()
    }
}
