ghost use Rattle.std.specs.Prelude.{◌≡◌, ◌+◌, ◌-◌, ◌<◌, ◌≤◌, ◌||◌, [], ◌++◌, true, false, IfOk};
ghost use mathlib.Core.Option.{none};
ghost use Rattle.atomic_table.specs.Table.{step};
ghost use Rattle.slab_claims.specs.Answers.{AnswersClaim};
ghost use Rattle.list_words.specs.Words.{EachOnce};
ghost use Rattle.slab_claims.specs.Rule.{Draws};

use crate::rule::{Draw, DrawsOnce, Sharing, View};
use atomic_table::{Seat, Shared, Table};
use st_base::NoMemory;
use std::alloc::Global;
use std::marker::Model;
use std::snapshot::Snapshot;

/// A counter from which seats draw the numbers of slabs, from 0 on. Threads share it by reference.
///
/// Its table has one word, the number to be drawn next, and was made for as many slabs as it says.
#[derive(Drop)]
pub struct Claims {
    table: Table<u8, View, (u32, u32), DrawsOnce, Global>,
    slabs: u32,
}

impl Model for Claims {
    ghost use Rattle.std.specs.Prelude.{◌≡◌};
    ghost use Rattle.slab_claims.specs.Seats.{ClaimsValue};

    ghost Value = { ClaimsValue };

    ghost view = { λ c. record { id = c.table.shared.table_id; slabs = c.slabs; seats = c.table.shared.key.1 } };

    ghost invariant = { λ c. (c.table.shared.key.0 ≡ c.slabs) × (c.table.shared.table_id.words ≡ 1) × (c.table.shared.table_id.slots ≡ 0) };
}

/// The right of one thread to draw. It has no bytes.
///
/// Its share of the seats is at least 1.
#[derive(Drop)]
pub struct ClaimSeat {
    seat: Seat<u8, View>,
}

impl Model for ClaimSeat {
    ghost use Rattle.std.specs.Prelude.{◌≡◌, ◌<◌, []};
    ghost use Rattle.slab_claims.specs.Seats.{SeatValue};

    ghost Value = { SeatValue };

    ghost view = { λ s. record { of = record { id = s.seat.table_id; slabs = s.seat.me.0.slabs; seats = s.seat.me.0.seats }; share = s.seat.me.0.share; drawn = s.seat.me.0.drawn; done = s.seat.me.0.done } };

    ghost invariant = { λ s. (s.seat.me.1 ≡ []) × (0 < s.seat.me.0.share) };
}

/// What a claim answers.
#[derive(Clone, Copy, Debug, PartialEq, Eq)]
pub enum Claim {
    /// The number of a slab, which no other claim answers.
    Slab(u32),
    /// All slabs are drawn.
    NoMore,
}

/// The token of the end. It has no bytes.
///
/// Each number below the slabs stands in its list, once.
#[derive(Drop)]
pub struct Drawn {
    last: Snapshot<Seat<u8, View>>,
}

impl Model for Drawn {
    ghost use Rattle.list_words.specs.Words.{EachOnce};
    ghost use Rattle.slab_claims.specs.Seats.{DrawnValue};

    ghost Value = { DrawnValue };

    ghost view = { λ d. record { slabs = d.last.value.me.0.slabs; list = d.last.value.me.0.drawn } };

    ghost invariant = { λ d. EachOnce d.last.value.me.0.slabs d.last.value.me.0.drawn };
}

impl Drawn {
    /// What each token shows: its list is the numbers below the slabs, each once.
    pub fn each_once(&self)
        ensures { EachOnce self.now.slabs self.now.list }
    {
        let _ = &self.last;
    }
}

// The one step on the counter.
fn draw(shared: &Shared<u8, View, (u32, u32), DrawsOnce>, seat: &mut Seat<u8, View>) -> u64
    requires table { (seat.old.table_id ≡ shared.now.table_id) × (0 < shared.now.table_id.words) }
    requires seat { (seat.old.me.1 ≡ []) × (0 < seat.old.me.0.share) × (seat.old.me.0.done ≡ false) }
    ensures same { seat.new.table_id ≡ seat.old.table_id }
    ensures drew { Draws (step shared.now.table_id.slots 0 1 0 none) seat.old.me result seat.new.me }
{
    shared.fetch_add::<Draw>(seat, 0, 1)
}

impl Claims {
    /// A counter of `slabs` numbers, and its first seat, which has all of `seats` shares, 1 to 64.
    ///
    /// ```
    /// let (claims, mut seat) = Claims::new(alloc, 3, 2)?;
    /// let other = claims.split(&mut seat); // for another thread
    /// assert_eq!(claims.claim(&mut seat), Claim::Slab(0));
    /// ```
    pub fn new(alloc: Global, slabs: u32, seats: u32) -> Result<(Claims, ClaimSeat), NoMemory>
        requires { (1 ≤ seats) × (seats ≤ 64) }
        ensures claims { IfOk result (λ r. (r.0.slabs ≡ slabs) × (r.0.seats ≡ seats)) }
        ensures seat { IfOk result (λ r. r.1 ≡ record { of = r.0; share = seats; drawn = []; done = false }) }
    {
        let Ok((table, seat)) = Table::of_words(alloc, &[0], &(slabs, seats)) else {
            return Err(NoMemory);
        };
        Ok((Claims { table, slabs }, ClaimSeat { seat }))
    }

    /// A new seat with one share of this one's.
    pub fn split(&self, seat: &mut ClaimSeat) -> ClaimSeat
        requires table { seat.old.of ≡ self.now }
        requires share { 2 ≤ seat.old.share }
        ensures kept { seat.new ≡ record seat.old { share = seat.old.share - 1 } }
        ensures given { result ≡ record seat.old { share = 1; drawn = [] } }
    {
        let given = self.table.shared.split_seat::<Sharing>(&mut seat.seat);
        ClaimSeat { seat: given }
    }

    /// Draws the next number, in one step: a slab, or past the last of them `NoMore`, after which the seat is done.
    pub fn claim(&self, seat: &mut ClaimSeat) -> Claim
        requires table { seat.old.of ≡ self.now }
        requires going { seat.old.done ≡ false }
        ensures { AnswersClaim seat.old seat.new result }
    {
        let number = draw(&self.table.shared, &mut seat.seat);
        if number < u64::from(self.slabs) {
            Claim::Slab(number as u32)
        } else {
            Claim::NoMore
        }
    }

    /// Takes in the other seat: its share is added, and its numbers go behind this one's.
    pub fn join(&self, seat: &mut ClaimSeat, other: ClaimSeat)
        requires table { seat.old.of ≡ self.now }
        requires other { other.of ≡ self.now }
        ensures { seat.new ≡ record seat.old { share = seat.old.share + other.share; drawn = seat.old.drawn ++ other.drawn; done = seat.old.done || other.done } }
    {
        let shared = &self.table.shared;
        let ClaimSeat { seat: theirs } = other;
        shared.join_seat::<Sharing>(&mut seat.seat, theirs);
    }

    /// Ends the drawing, by a seat that has all shares again and is done.
    pub fn close(self, seat: ClaimSeat) -> Drawn
        requires table { seat.of ≡ self }
        requires whole { seat.share ≡ self.seats }
        requires done { seat.done ≡ true }
        ensures drawn { result ≡ record { slabs = self.slabs; list = seat.drawn } }
        ensures each_once { EachOnce result.slabs result.list }
    {
        let Claims { table, slabs: _ } = self;
        let ClaimSeat { seat } = seat;
        let last = Snapshot::of(&seat);
        let closed = table.close_with(seat);
        closed.free();
        Drawn { last }
    }
}
