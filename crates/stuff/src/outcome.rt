use st_base::Status;
use survey::Trace;

/// What the top call comes to: its status, and how the states of its mesh were made, if it made one and is done.
#[derive(Drop)]
pub struct Outcome {
    pub status: Status,
    pub trace: Option<Trace>,
}
