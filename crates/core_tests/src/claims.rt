ghost use Rattle.std.specs.Prelude.{◌≡◌, false, true};

use slab_claims::{Claim, ClaimSeat, Claims};
use std::process::Abort;
use std::thread;

// A claim that has to answer a slab.
fn slab(rt: &impl Abort, claims: &Claims, seat: &mut ClaimSeat) -> u32
    requires table { seat.old.of ≡ claims.now }
    requires going { seat.old.done ≡ false }
    ensures same { (seat.new.of ≡ seat.old.of) × (seat.new.share ≡ seat.old.share) }
    ensures going { seat.new.done ≡ false }
{
    match claims.claim(seat) {
        Claim::Slab(number) => number,
        Claim::NoMore => panic!(rt; "there is a slab left"),
    }
}

// A claim that has to answer that there are no more.
fn no_more(rt: &impl Abort, claims: &Claims, seat: &mut ClaimSeat)
    requires table { seat.old.of ≡ claims.now }
    requires going { seat.old.done ≡ false }
    ensures same { (seat.new.of ≡ seat.old.of) × (seat.new.share ≡ seat.old.share) }
    ensures done { seat.new.done ≡ true }
{
    match claims.claim(seat) {
        Claim::Slab(number) => panic!(rt; "slab {number} is one too many"),
        Claim::NoMore => (),
    }
}

#[test]
fn two_seats_in_turn(rt: HostRuntime) {
    let (claims, mut a) = Claims::new(rt.alloc(), 3, 2).expect(&rt, "memory");
    let mut b = claims.split(&mut a);
    let first = slab(&rt, &claims, &mut a);
    let second = slab(&rt, &claims, &mut b);
    let third = slab(&rt, &claims, &mut a);
    no_more(&rt, &claims, &mut a);
    no_more(&rt, &claims, &mut b);
    claims.join(&mut a, b);
    claims.close(a).each_once();
    assert_eq!(rt; [first, second, third], [0, 1, 2]);
}

#[test]
fn one_slab(rt: HostRuntime) {
    let (claims, mut seat) = Claims::new(rt.alloc(), 1, 1).expect(&rt, "memory");
    assert_eq!(rt; slab(&rt, &claims, &mut seat), 0);
    no_more(&rt, &claims, &mut seat);
    claims.close(seat).each_once();
}

// One claim, by a seat of a thread's own.
fn once(rt: &impl Abort, claims: &Claims, mut seat: ClaimSeat) -> u32
    requires table { seat.of ≡ claims.now }
    requires going { seat.done ≡ false }
{
    slab(rt, claims, &mut seat)
}

#[test]
fn two_threads(rt: HostRuntime) {
    let (claims, mut a) = Claims::new(rt.alloc(), 2, 2).expect(&rt, "memory");
    let b = claims.split(&mut a);
    let (x, y) = thread::join(&rt, || once(&rt, &claims, a), || once(&rt, &claims, b));
    assert_eq!(rt; (x.min(y), x.max(y)), (0, 1));
}
