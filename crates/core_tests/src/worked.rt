ghost use Rattle.std.specs.Prelude.{◌≡◌, [], ◌∷◌, true, IfSome};
ghost use Rattle.slab_core.specs.Steps.{worker};
ghost use Rattle.slab_core.specs.Results.{all_made, all_done};

use crate::scripts::start;
use slab_core::{Core, Event};
use std::alloc::Global;

macro_rules! event {
    (C $w:literal) => { Event::Claim { w: $w } };
    (L $w:literal $h:literal) => { Event::Look { w: $w, h: $h } };
    (P $w:literal $id:literal) => { Event::Put { w: $w, id: $id } };
    (U $w:literal $h:literal) => { Event::Raise { w: $w, h: $h } };
    (F $w:literal $slab:literal) => { Event::Finish { w: $w, slab: $slab } };
    (Q $w:literal) => { Event::Quit { w: $w } };
}

// One worker does all slabs.
const ALONE: [Event; 60] = [
    event!(C 0),
    event!(L 0 0),
    event!(P 0 0),
    event!(P 0 1),
    event!(P 0 2),
    event!(P 0 3),
    event!(P 0 4),
    event!(P 0 5),
    event!(P 0 6),
    event!(P 0 7),
    event!(P 0 8),
    event!(U 0 0),
    event!(L 0 1),
    event!(P 0 9),
    event!(P 0 10),
    event!(P 0 11),
    event!(P 0 12),
    event!(U 0 1),
    event!(L 0 2),
    event!(P 0 13),
    event!(P 0 14),
    event!(P 0 15),
    event!(P 0 16),
    event!(P 0 17),
    event!(P 0 18),
    event!(P 0 19),
    event!(P 0 20),
    event!(P 0 21),
    event!(U 0 2),
    event!(L 0 3),
    event!(P 0 22),
    event!(P 0 23),
    event!(P 0 24),
    event!(P 0 25),
    event!(U 0 3),
    event!(F 0 0),
    event!(C 0),
    event!(L 0 0),
    event!(L 0 1),
    event!(L 0 2),
    event!(L 0 3),
    event!(L 0 4),
    event!(P 0 26),
    event!(P 0 27),
    event!(P 0 28),
    event!(P 0 29),
    event!(P 0 30),
    event!(P 0 31),
    event!(P 0 32),
    event!(P 0 33),
    event!(P 0 34),
    event!(U 0 4),
    event!(F 0 1),
    event!(C 0),
    event!(L 0 2),
    event!(L 0 3),
    event!(L 0 4),
    event!(F 0 2),
    event!(C 0),
    event!(Q 0),
];

// Two workers see the flag of layer 0 down, and each makes it.
const TOGETHER: [Event; 24] = [
    event!(C 0),
    event!(C 1),
    event!(L 0 0),
    event!(L 1 0),
    event!(P 0 0),
    event!(P 0 1),
    event!(P 0 2),
    event!(P 0 3),
    event!(P 0 4),
    event!(P 0 5),
    event!(P 0 6),
    event!(P 0 7),
    event!(P 0 8),
    event!(U 0 0),
    event!(P 1 0),
    event!(P 1 1),
    event!(P 1 2),
    event!(P 1 3),
    event!(P 1 4),
    event!(P 1 5),
    event!(P 1 6),
    event!(P 1 7),
    event!(P 1 8),
    event!(U 1 0),
];

// The core after one worker did all slabs: it made each layer once.
fn alone(alloc: Global) -> Option<Core>
    ensures made { IfSome result (λ c. all_made c ≡ 0 ∷ 1 ∷ 2 ∷ 3 ∷ 4 ∷ []) }
    ensures done { IfSome result (λ c. all_done c ≡ 0 ∷ 1 ∷ 2 ∷ []) }
    ensures gone { IfSome result (λ c. (worker c 0).gone ≡ true) }
{
    let mut core = start(alloc, 1)?;
    let Ok(_) = core.run(&ALONE) else {
        return None;
    };
    Some(core)
}

// The core after two workers made layer 0, which is made twice.
fn together(alloc: Global) -> Option<Core>
    ensures { IfSome result (λ c. all_made c ≡ 0 ∷ 0 ∷ []) }
{
    let mut core = start(alloc, 2)?;
    let Ok(_) = core.run(&TOGETHER) else {
        return None;
    };
    Some(core)
}

#[test]
fn what_scripts_lead_to(rt: HostRuntime) {
    alone(rt.alloc()).expect(&rt, "memory").holds();
    together(rt.alloc()).expect(&rt, "memory").holds();
}
