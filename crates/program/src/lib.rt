//! What the program does: it answers `--help` and `--version`, and gives every other list of words to the top call.
//!
//! ```rust
//! let status = carry_out(&rt, &rt, rt.alloc(), System::new(&rt), rt.stdout(), rt.stderr());
//! ExitCode::from(status.code())
//! ```
#![tactic(auto)]

mod asking;
mod carry;
mod help;
mod words;

pub use asking::{Asked, read_asked};
pub use carry::{carry_out, program};
pub use help::{HELP, VERSION};
pub use words::words_of;
