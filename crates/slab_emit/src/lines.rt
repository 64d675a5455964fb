use st_base::Frame;

/// What is made of the slabs of a mesh.
#[derive(Clone, Copy, Debug, PartialEq, Eq)]
pub enum Lines {
    /// The lines of the nodes in a frame, numbered from `numbering`, which is 0 or 1.
    Nodes { frame: Frame, numbering: u32 },
    /// The lines of the tetrahedra, numbered likewise, and the extremes of their angles, whose numbers begin at 0.
    Tets { numbering: u32 },
    /// These extremes alone.
    Angles,
}
