ghost use Rattle.std.specs.Prelude.{◌≡◌, ◌++◌, IfOk};

use st_base::NoMemory;
use std::alloc::{AllocError, Global};

fn joined(alloc: Global, name: &[u8], ending: &[u8]) -> Result<Vec<u8>, AllocError>
    ensures { IfOk result (λ v. v.items ≡ name.now ++ ending.now) }
{
    let mut whole = name.to_vec(alloc)?;
    whole.extend_from_slice(ending)?;
    Ok(whole)
}

/// A name with an ending behind it.
pub fn file_name(alloc: Global, name: &[u8], ending: &[u8]) -> Result<Vec<u8>, NoMemory>
    ensures { IfOk result (λ v. v.items ≡ name.now ++ ending.now) }
{
    match joined(alloc, name, ending) {
        Ok(whole) => Ok(whole),
        Err(_) => Err(NoMemory),
    }
}
