/// Why a file was not written.
#[derive(Clone, Copy, Debug, PartialEq, Eq)]
pub enum PutFault {
    /// The port did not take all bytes.
    WriteFault,
    /// Memory ran out.
    NoMemory,
}
