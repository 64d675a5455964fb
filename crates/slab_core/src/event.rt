/// A step of worker `w`.
#[derive(Clone, Copy, Debug, PartialEq, Eq)]
pub enum Event {
    /// It draws the next slab, or finds that none is left.
    Claim { w: u32 },
    /// It looks whether the flag of layer `h` is up.
    Look { w: u32, h: u32 },
    /// It puts the word of vertex `id`, where that is still 0.
    Put { w: u32, id: u32 },
    /// It raises the flag of layer `h`, whose words it put.
    Raise { w: u32, h: u32 },
    /// It reads the word of vertex `id`, in a layer that it saw with the flag up.
    Read { w: u32, id: u32 },
    /// It is done with a slab that it drew, all layers of whose reach it saw with the flag up.
    Finish { w: u32, slab: u32 },
    /// It goes, as no slab is left and all that it drew are done.
    Quit { w: u32 },
}
