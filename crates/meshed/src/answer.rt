ghost use Rattle.std.specs.Prelude.{◌≡◌, []};

use st_base::Status;
use std::alloc::Global;

/// A name, and the bytes under it.
#[derive(Drop)]
pub struct File {
    pub name: Vec<u8>,
    pub bytes: Vec<u8>,
}

/// What a command comes to: its status, the files that it made, what it reports, and the line that tells why it was
/// not carried out. Each of the last three is empty where there is no such thing.
#[derive(Drop)]
pub struct Answer {
    pub status: Status,
    pub files: Vec<File>,
    pub report: Vec<u8>,
    pub trouble: Vec<u8>,
}

impl Answer {
    /// A status alone.
    pub fn bare(alloc: Global, status: Status) -> Answer
        ensures status { result.status ≡ status }
        ensures files { result.files.items ≡ [] }
        ensures report { result.report.items ≡ [] }
        ensures trouble { result.trouble.items ≡ [] }
    {
        Answer {
            status,
            files: Vec::new(alloc),
            report: Vec::new(alloc),
            trouble: Vec::new(alloc),
        }
    }
}
