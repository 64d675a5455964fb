//! The six kinds of lattice tetrahedra.
ghost use Rattle.std.specs.Prelude.{◌≡◌, ◌<◌, IsTrue};
ghost use Rattle.lattice_laws.specs.NumberedTetrahedra.{IsNumberedTet};
ghost use Rattle.stencils.specs.Frames.{FitsFrame, IsFrameOfKind, are_directions, kind_number};

use crate::Tet;
use definitions::Vertex;

/// What the lattice tetrahedra of one kind have in common: the directions of the edges 01, 02, 03, 12, 13 and 23,
/// and whether their volume is below zero.
#[derive(Clone, Copy)]
pub struct Frame {
    pub directions: [u32; 6],
    pub is_turned: bool,
}

// The kinds, by the directions of the three later vertices from the lowest one.
static FRAMES: [Frame; 6] = [
    Frame {
        directions: [1, 4, 6, 3, 5, 2],
        is_turned: true,
    },
    Frame {
        directions: [2, 5, 6, 3, 4, 1],
        is_turned: false,
    },
    Frame {
        directions: [3, 4, 7, 1, 6, 5],
        is_turned: false,
    },
    Frame {
        directions: [3, 5, 7, 2, 6, 4],
        is_turned: true,
    },
    Frame {
        directions: [4, 6, 7, 2, 5, 3],
        is_turned: false,
    },
    Frame {
        directions: [5, 6, 7, 1, 4, 3],
        is_turned: true,
    },
];

/// The frame of the lattice tetrahedra of a kind. From a vertex, those to its neighbours in the directions (1, 4, 6), (2, 5, 6),
/// (3, 4, 7), (3, 5, 7), (4, 6, 7) and (5, 6, 7) are of the kinds 0 to 5.
#[inline(always)]
pub fn frame_of_kind(kind: usize) -> &'static Frame
    requires { kind < 6 }
    ensures frame { IsFrameOfKind kind result.now }
    ensures small { IsTrue (are_directions result.now.directions) }
{
    &FRAMES[kind]
}

/// The frame of a lattice tetrahedron.
pub fn frame_of(tet: &Tet) -> &'static Frame
    requires { IsNumberedTet tet.now.at tet.now.ids }
    ensures { FitsFrame tet.now.at result.now }
{
    &FRAMES[number_of_kind(tet.at[0], tet.at[1], tet.at[2])]
}

// The place of a tetrahedron's kind among the six, by its lowest three vertices.
fn number_of_kind(a: Vertex, b: Vertex, c: Vertex) -> usize
    ensures value { result ≡ kind_number a b c }
    ensures below { result < 6 }
{
    if b.h == a.h {
        if b.y == a.y { 0 } else { 1 }
    } else if a.y < b.y {
        5
    } else if a.x < b.x {
        4
    } else if a.y < c.y {
        3
    } else {
        2
    }
}
