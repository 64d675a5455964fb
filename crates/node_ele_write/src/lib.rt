//! The lines of the .node and the .ele text of a mesh, the report of how large it is and of its angles, and texts to a
//! port of a desk.
//!
//! A [`Pen`] makes lines in buffers that are used again, from texts of numbers and fractions that are kept.
//!
//! ```rust
//! let mut pen = Pen::new(alloc)?;
//! pen.ele_lines(&mut out, 23, 0, &[[7, 12, 14, 13]])?;
//! assert_eq!(rt; out.as_slice(), b"23 7 12 14 13\n".as_slice());
//! ```
#![tactic(auto)]

mod fault;
mod fractions;
mod front;
mod line;
mod node;
mod own_units;
mod pen;
mod put;
mod report;
mod row;
mod tet_lines;
mod text;
mod texts;
mod world;
mod world_texts;

pub use fault::PutFault;
pub use line::{Line, ROOM};
pub use pen::Pen;
pub use put::{WriteFault, put_all};
pub use report::report_text;
pub use text::{add, coordinate_text, counts_text, ele_line, node_line};
pub use world::world_text;
