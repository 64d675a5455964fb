ghost use Rattle.std.specs.Prelude.{◌≡◌, Some, IfSome};
ghost use Rattle.desk_mem.specs.HeldUnder.{held_under};

use std::alloc::Global;

/// Bytes under a name.
#[derive(Drop)]
pub struct Held {
    pub name: Vec<u8>,
    pub bytes: Vec<u8>,
}

/// A copy of the bytes that are held under a name. `None`: there is no such name, or no memory.
pub fn copy_of(alloc: Global, inputs: &[Held], name: &[u8]) -> Option<Vec<u8>>
    ensures { IfSome result (λ copy. held_under inputs.now name.now ≡ Some copy.items) }
{
    let mut rest = inputs;
    while let [held, after @ ..] = rest {
        if held.name.as_slice() == name {
            return held.bytes.to_vec(alloc).ok();
        }
        rest = after;
    }
    None
}
