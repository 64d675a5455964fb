ghost use Rattle.std.specs.Prelude.{◌≡◌, ℕ, ◌+◌, ◌<◌, ◌≤◌, ◌^◌, [], ◌++◌, true, false, IfOk, length, slice_index};
ghost use Rattle.std.specs.Mem.Slots.{IsFull, slots_items, slots_len};
ghost use Rattle.definitions.specs.Lattice.{IsDims, InDomain, id as id_of, layers, vertices};
ghost use Rattle.definitions.specs.States.{IsState, code as code_of, state_of as state_at, states};
ghost use Rattle.bcc_lattice.specs.Layouts.{IsLayout};
ghost use Rattle.list_words.specs.Words.{has};
ghost use Rattle.layer_cells.specs.Rule.{has_layer};
ghost use Rattle.layer_cells.specs.Answers.{seat_looked, seat_put, seat_raised, seat_given, seat_joined};

use crate::rule::{Key, Look, Put, Raise, Read, SetOnce, Telling, View};
use atomic_table::{Closed, Seat, Table};
use bcc_lattice::{Layout, id, state_of, vertex_count};
use definitions::State;
use samples::Field;
use snap_rule::{Shares, States};
use st_base::{Dims, NoMemory, Vertex};
use std::alloc::Global;
use std::marker::Model;
use std::snapshot::Snapshot;

/// A word for the state of each vertex, 0 until it is set, and a flag for each layer. Threads share it by
/// reference.
///
/// There are as many words, and as much room for closing them, as there are vertices and layers.
#[derive(Drop)]
pub struct Cells {
    table: Table<u8, View, Key, SetOnce, Global>,
    dims: Dims,
    room: Vec<u64>,
}

impl Model for Cells {
    ghost use Rattle.std.specs.Prelude.{◌≡◌, ◌+◌, length};
    ghost use Rattle.definitions.specs.Lattice.{IsDims, layers, vertices};
    ghost use Rattle.layer_cells.specs.Seats.{CellsValue};

    ghost Value = { CellsValue };

    ghost view = { λ c. record { id = c.table.shared.table_id; subject = record { field = c.table.shared.key.0.value; shares = c.table.shared.key.1 } } };

    ghost invariant = { λ c. (c.table.shared.key.0.value.dims ≡ c.dims) × IsDims c.dims × (c.table.shared.table_id.words ≡ length (vertices c.dims) + layers c.dims) × (c.table.shared.table_id.slots ≡ 0) × (length c.room.items ≡ length (vertices c.dims) + layers c.dims) };
}

/// The right of one thread to make layers and to read those that are made. Of what it knows only the sizes are
/// there when the program runs.
///
/// Its sizes are those of the field that the cells are of.
#[derive(Drop)]
pub struct CellSeat {
    seat: Seat<u8, View>,
    dims: Dims,
}

impl Model for CellSeat {
    ghost use Rattle.std.specs.Prelude.{◌≡◌, []};
    ghost use Rattle.definitions.specs.Lattice.{IsDims};
    ghost use Rattle.layer_cells.specs.Seats.{CellSeatValue};

    ghost Value = { CellSeatValue };

    ghost view = { λ s. record { of = record { id = s.seat.table_id; subject = record { field = s.seat.me.0.field; shares = s.seat.me.0.shares } }; seen = s.seat.me.0.seen; down = s.seat.me.0.down; put = s.seat.me.0.put; made = s.seat.me.0.made } };

    ghost invariant = { λ s. (s.seat.me.1 ≡ []) × (s.seat.me.0.field.dims ≡ s.dims) × IsDims s.dims };
}

impl CellSeat {
    /// The sizes of the field whose layers these are.
    pub fn dims(&self) -> Dims
        ensures dims { result ≡ self.now.of.subject.field.dims }
        ensures sizes { IsDims result }
    {
        self.dims
    }
}

/// The states of all vertices, which seats made. Nothing but closing cells makes one.
#[derive(Drop)]
pub struct Published {
    last: Snapshot<Seat<u8, View>>,
    states: States,
}

impl Model for Published {
    ghost use Rattle.std.specs.Prelude.{◌≡◌};
    ghost use Rattle.definitions.specs.States.{states as states_of};
    ghost use Rattle.layer_cells.specs.Seats.{PublishedValue};

    ghost Value = { PublishedValue };

    ghost view = { λ p. record { subject = record { field = p.last.value.me.0.field; shares = p.last.value.me.0.shares }; made = p.last.value.me.0.made } };

    ghost invariant = { λ p. (p.states.dims ≡ p.last.value.me.0.field.dims) × (p.states.states ≡ states_of p.last.value.me.0.field p.last.value.me.0.shares) };
}

impl Published {
    /// The states of the field's vertices.
    pub fn states(&self) -> &States
        ensures dims { result.now.dims ≡ self.now.subject.field.dims }
        ensures states { result.now.states ≡ states self.now.subject.field self.now.subject.shares }
    {
        &self.states
    }
}

impl Cells {
    /// Cells for the states of a field, none of them set, and the first seat, which knows nothing.
    pub fn new(
        alloc: Global,
        layout: Layout,
        field: &Field,
        shares: Shares,
    ) -> Result<(Cells, CellSeat), NoMemory>
        requires layout { IsLayout layout.dims layout.slab }
        requires sizes { layout.dims ≡ field.now.dims }
        ensures cells { IfOk result (λ r. r.0.subject ≡ record { field = field.now; shares = shares }) }
        ensures seat { IfOk result (λ r. r.1 ≡ record { of = r.0; seen = []; down = []; put = []; made = [] }) }
    {
        let dims = layout.dims;
        let words = vertex_count(dims) as usize + layout.layers() as usize;
        let Ok(room) = Vec::from_elem(alloc, 0u64, words) else {
            return Err(NoMemory);
        };
        let subject = (Snapshot::of(field), shares);
        let Ok((table, seat)) = Table::of_words(alloc, room.as_slice(), &subject) else {
            return Err(NoMemory);
        };
        Ok((Cells { table, dims, room }, CellSeat { seat, dims }))
    }

    // The word of a layer's flag.
    fn flag(&self, h: u32) -> usize
        requires { h < layers self.now.subject.field.dims }
        ensures flag { result ≡ length (vertices self.now.subject.field.dims) + h }
        ensures within { result < self.now.id.words }
    {
        vertex_count(self.dims) as usize + h as usize
    }

    /// Whether a layer's flag is up. If it is, the seat knows the layer from now on.
    pub fn look(&self, seat: &mut CellSeat, h: u32) -> bool
        requires table { seat.old.of ≡ self.now }
        requires layer { h < layers self.now.subject.field.dims }
        ensures seat { seat.new ≡ seat_looked seat.old h result }
        ensures unknown { result ≡ false → has h seat.old.seen ≡ false }
    {
        let word = self.flag(h);
        let found = self.table.shared.load::<Look>(&mut seat.seat, word);
        found != 0
    }

    /// Sets the state of a vertex, which has this id, if no seat has set it.
    #[inline(always)]
    pub fn put(&self, seat: &mut CellSeat, _v: Vertex, id: u32, code: u64)
        requires table { seat.old.of ≡ self.now }
        requires domain { InDomain self.now.subject.field.dims _v }
        requires id { id ≡ id_of self.now.subject.field.dims _v }
        requires code { code ≡ code_of (state_at self.now.subject.field self.now.subject.shares _v) }
        ensures { seat.new ≡ seat_put seat.old id }
    {
        self.table
            .shared
            .compare_exchange::<Put>(&mut seat.seat, id as usize, 0, code);
    }

    /// Raises the flag of a layer that this seat put whole, and whose flag its last look found down.
    pub fn raise(&self, seat: &mut CellSeat, h: u32)
        requires table { seat.old.of ≡ self.now }
        requires layer { h < layers self.now.subject.field.dims }
        requires put { has_layer self.now.subject h seat.old.put ≡ true }
        requires down { has h seat.old.down ≡ true }
        ensures { seat.new ≡ seat_raised seat.old h }
    {
        let word = self.flag(h);
        self.table.shared.store::<Raise>(&mut seat.seat, word, 1);
    }

    /// The state of a vertex in a layer that the seat knows.
    pub fn read(&self, seat: &mut CellSeat, v: Vertex) -> State
        requires table { seat.old.of ≡ self.now }
        requires domain { InDomain self.now.subject.field.dims v }
        requires known { has v.h seat.old.seen ≡ true }
        ensures state { result ≡ state_at self.now.subject.field self.now.subject.shares v }
        ensures is_state { IsState result }
        ensures same { seat.new ≡ seat.old }
    {
        self.read_id(seat, v, id(self.dims, v))
    }

    /// The same, for a caller that has the vertex's id.
    #[inline(always)]
    pub fn read_id(&self, seat: &mut CellSeat, _v: Vertex, id: u32) -> State
        requires table { seat.old.of ≡ self.now }
        requires domain { InDomain self.now.subject.field.dims _v }
        requires id { id ≡ id_of self.now.subject.field.dims _v }
        requires known { has _v.h seat.old.seen ≡ true }
        ensures state { result ≡ state_at self.now.subject.field self.now.subject.shares _v }
        ensures is_state { IsState result }
        ensures same { seat.new ≡ seat.old }
    {
        let code = self.table.shared.load::<Read>(&mut seat.seat, id as usize);
        let Some(state) = state_of(code) else {
            unreachable!()
        };
        state
    }

    /// A new seat, which knows what this one knows.
    pub fn split(&self, seat: &mut CellSeat) -> CellSeat
        requires { seat.old.of ≡ self.now }
        ensures kept { seat.new ≡ seat.old }
        ensures given { result ≡ seat_given seat.old }
    {
        let given = self.table.shared.split_seat::<Telling>(&mut seat.seat);
        CellSeat {
            seat: given,
            dims: seat.dims,
        }
    }

    /// Takes in the other seat: this one knows what either knew, and the layers that the other made go behind
    /// this one's.
    pub fn join(&self, seat: &mut CellSeat, other: CellSeat)
        requires table { seat.old.of ≡ self.now }
        requires other { other.of ≡ self.now }
        ensures { seat.new ≡ seat_joined seat.old other }
    {
        let CellSeat {
            seat: theirs,
            dims: _,
        } = other;
        self.table
            .shared
            .join_seat::<Telling>(&mut seat.seat, theirs);
    }

    /// The states of all vertices, by a seat that knows all layers.
    pub fn close(self, seat: CellSeat) -> Published
        requires table { seat.of ≡ self }
        requires all { (h : ℕ) → h < layers self.subject.field.dims → has h seat.seen ≡ true }
        ensures { result ≡ record { subject = self.subject; made = seat.made } }
    {
        let Cells { table, dims, room } = self;
        let CellSeat { seat, dims: _ } = seat;
        let last = Snapshot::of(&seat);
        let closed = table.close_with(seat);
        let codes = taken(&closed, room, vertex_count(dims) as usize);
        closed.free();
        let states = States::of_codes(dims, codes);
        Published { last, states }
    }
}

// The first `count` words, in the room.
fn taken(closed: &Closed<u8, Global>, mut room: Vec<u64>, count: usize) -> Vec<u64>
    requires full { IsFull closed.now.words }
    requires words { count ≤ slots_len closed.now.words }
    requires room { count ≤ length room.items }
    ensures len { length result.items ≡ count }
    ensures words { (k : ℕ) → k < count → slice_index result.items k ≡ slice_index (slots_items closed.now.words) k }
{
    for k in 0..count {
        room[k] = closed.word(k);
    }
    room.truncate(count);
    room
}
