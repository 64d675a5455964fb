use st_base::{NoMemory, Words};
use std::alloc::Global;
use std::env::{Env, FillError};

/// The room that a word is read into first.
const ROOM: usize = 256;

/// The bytes of word `n`, or `None` behind the last one. Word 0 is the program's name.
fn word_at(env: &impl Env, alloc: Global, n: usize) -> Result<Option<Vec<u8>>, NoMemory> {
    let mut room = ROOM;
    for _ in 0..32 {
        let Ok(mut word) = vec![in alloc; 0u8; room] else {
            return Err(NoMemory);
        };
        match env.arg(n, &mut word) {
            Ok(length) => {
                word.truncate(length);
                return Ok(Some(word));
            }
            Err(FillError::NotPresent) => return Ok(None),
            Err(FillError::TooLong) => room = room.saturating_mul(2),
        }
    }
    Err(NoMemory)
}

/// The words behind the program's name, as bytes of any kind.
pub fn words_of(env: &impl Env, alloc: Global) -> Result<Words, NoMemory> {
    let mut words = Words::new(alloc);
    for n in 1..usize::MAX {
        let Some(word) = word_at(env, alloc, n)? else {
            break;
        };
        words.push(&word)?;
    }
    Ok(words)
}
