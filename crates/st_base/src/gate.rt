/// What a worker passes after each slab that it drew, before it works on it.
///
/// `pass` returns, and means nothing: a gate can only look on.
pub trait Gate {
    fn pass(&self, worker: u32, slab: u32);
}

/// A gate that does nothing.
#[derive(Clone, Copy, Debug, PartialEq, Eq)]
pub struct OpenGate;

impl Gate for OpenGate {
    fn pass(&self, _worker: u32, _slab: u32) {}
}
