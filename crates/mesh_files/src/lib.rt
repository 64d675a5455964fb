//! What finished .node and .ele files say, and what their tetrahedra come to, in specs/; here are the
//! plain types that these words use.
#![tactic(auto)]

/// What is wrong with a line of a mesh file.
#[derive(Clone, Copy, Debug, PartialEq, Eq)]
pub enum LineFault {
    /// It is not of its form.
    Form,
    /// It is of its form, and a coordinate is no multiple of 1/8192 or is too large.
    Coordinate,
    /// It is of its form, and names a node that is not there.
    Node,
}

/// What the first line of a mesh file says: how many lines follow, and how many fields at the end of
/// each are passed over.
#[derive(Clone, Copy, Debug, PartialEq, Eq)]
pub struct FileHead {
    pub count: u32,
    pub extra: u32,
}
