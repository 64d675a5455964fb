//! Layers of states that several threads make, each state once set, and publish to one another by a flag for
//! each layer.
//!
//! [`Cells`] has one word for each vertex of a field's lattice and one flag for each layer, and a [`CellSeat`] is
//! the right of one thread to work on them. A seat looks at the flag of a layer. Where it is up, the seat knows
//! the layer, and may read its states. Where it is down, the seat may put the states of all its vertices and
//! raise the flag. Several seats may make the same layer: a word is set by whoever comes first, always to the
//! same code. Once one seat knows all layers, closing the cells gives the [`Published`] states. Nothing here
//! waits, and no call but `Cells::new` takes memory.
//!
//! ```rust
//! let (cells, mut seat) = Cells::new(alloc, layout, &field, shares)?;
//! if !cells.look(&mut seat, 0) {
//!     put_layer(&cells, &mut seat, 0); // each vertex of layer 0
//!     cells.raise(&mut seat, 0);
//! }
//! let state = cells.read(&mut seat, vertex);
//! ```
#![tactic(auto)]

mod cells;
mod rule;

pub use cells::{CellSeat, Cells, Published};
