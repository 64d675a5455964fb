//! The pieces of a lattice tetrahedron: what is kept of it, cut into at most three tetrahedra.
//!
//! The keys of the ten nodes that a lattice tetrahedron can have always ascend in the same order. So which
//! nodes its pieces have depends on the signs of its vertices alone, and their orientation on the sign of its volume
//! besides: the pieces are a row of a table, with the keys filled in.
#![tactic(auto)]

ghost use Rattle.std.specs.Prelude.{◌≡◌, ◌+◌, ◌*◌, ◌^◌, ◌<◌, All, IsTrue, length, nat_lt, map, position, slice_index, take, if◌then◌else◌};
ghost use Rattle.std.specs.List.{list_all};
ghost use Rattle.definitions.specs.Pieces.{pieces as pieces_of, corner_key};
ghost use Rattle.lattice_laws.specs.NumberedTetrahedra.{IsNumberedTet, is_corner, rank};
ghost use Rattle.definitions.specs.Stencils.{corners, same_corner};
ghost use Rattle.stencils.specs.Cases.{IsCase, has_places, listed};
ghost use Rattle.stencils.specs.Frames.{ten_keys, are_directions};

mod cases;
mod filled;
mod frames;

pub use bcc_lattice::Tet;
pub use cases::Case;
use cases::{Row, row_of_signs};
pub use definitions::{Corner, Sign, Vertex};
pub use filled::Pieces;
use frames::frame_of;
pub use frames::{Frame, frame_of_kind};

/// The pieces of a lattice tetrahedron with these signs: the keys of their nodes, oriented and in order.
///
/// ```
/// let found = pieces(&tet, [Sign::Plus, Sign::Minus, Sign::Minus, Sign::Minus]);
/// assert_eq!(found.len, 1);
/// assert_eq!(found.of[0][0], 8 * tet.ids[0]);
/// ```
pub fn pieces(tet: &Tet, signs: [Sign; 4]) -> Pieces
    requires fit { All (λ id. 8 * id + 7 < 2 ^ 32) tet.now.ids }
    requires tet { IsNumberedTet tet.now.at tet.now.ids }
    ensures pieces { take result.len result.of ≡ pieces_of tet.now.at tet.now.ids signs }
    ensures len { result.len ≡ length (pieces_of tet.now.at tet.now.ids signs) }
{
    let row = row_of_signs(signs);
    if row.straight.len == 0 {
        return Pieces {
            len: 0,
            of: [[0; 4]; 3],
        };
    }
    let frame = frame_of(tet);
    let keys = keys_of(tet.ids, frame.directions);
    keys_of_case(&keys, case_of(row, frame.is_turned))
}

/// The key of a node of a lattice tetrahedron: eight times the id of its vertex, or of the lower end of its edge, and
/// for a cut the direction of the edge. The slots are at most 3, and of a cut the first slot is below the second.
pub fn node_key(tet: &Tet, corner: Corner) -> u32
    requires fit { All (λ id. 8 * id + 7 < 2 ^ 32) tet.now.ids }
    requires tet { IsNumberedTet tet.now.at tet.now.ids }
    requires corner { IsTrue (is_corner corner) }
    ensures { result ≡ corner_key tet.now.at tet.now.ids corner }
{
    let frame = frame_of(tet);
    let keys = keys_of(tet.ids, frame.directions);
    keys[place_of(corner)]
}

// The ten nodes that a tetrahedron can have, in the order of their keys.
const CORNERS: [Corner; 10] = [
    Corner::Whole(0),
    Corner::Cut(0, 1),
    Corner::Cut(0, 2),
    Corner::Cut(0, 3),
    Corner::Whole(1),
    Corner::Cut(1, 2),
    Corner::Cut(1, 3),
    Corner::Whole(2),
    Corner::Cut(2, 3),
    Corner::Whole(3),
];

// The place of a node among the ten.
fn place_of(corner: Corner) -> usize
    requires { IsTrue (is_corner corner) }
    ensures place { result ≡ rank corner }
    ensures below { result < 10 }
{
    find_corner(corner).unwrap_or(0)
}

fn find_corner(corner: Corner) -> Option<usize>
    ensures { result ≡ position (same_corner corner) corners }
{
    CORNERS.iter().position(|c| is_same(corner, *c))
}

fn is_same(a: Corner, b: Corner) -> bool
    ensures { result ≡ same_corner a b }
{
    match (a, b) {
        (Corner::Whole(m), Corner::Whole(n)) => m == n,
        (Corner::Cut(k, m), Corner::Cut(l, n)) => k == l && m == n,
        _ => false,
    }
}

/// The pieces with these signs of a lattice tetrahedron whose volume is below zero, or of one whose volume is above.
#[inline(always)]
pub fn case_of_signs(signs: [Sign; 4], is_turned: bool) -> &'static Case
    ensures { IsCase is_turned signs result.now }
{
    case_of(row_of_signs(signs), is_turned)
}

fn case_of(row: &'static Row, is_turned: bool) -> &'static Case
    ensures { result.now ≡ (if is_turned then row.now.turned else row.now.straight) }
{
    if is_turned {
        &row.turned
    } else {
        &row.straight
    }
}

// The keys of all ten nodes that a tetrahedron can have, by the directions of its edges 01, 02, 03, 12, 13 and 23.
fn keys_of(ids: [u32; 4], directions: [u32; 6]) -> [u32; 10]
    requires fit { All (λ id. 8 * id + 7 < 2 ^ 32) ids }
    requires small { IsTrue (are_directions directions) }
    ensures { result ≡ ten_keys ids directions }
{
    let [a, b, c, d] = [8 * ids[0], 8 * ids[1], 8 * ids[2], 8 * ids[3]];
    [
        a,
        a + directions[0],
        a + directions[1],
        a + directions[2],
        b,
        b + directions[3],
        b + directions[4],
        c,
        c + directions[5],
        d,
    ]
}

// The pieces of a case, with these keys.
fn keys_of_case(keys: &[u32; 10], case: &Case) -> Pieces
    requires { IsTrue (has_places case.now) }
    ensures len { result.len ≡ case.now.len }
    ensures pieces { take result.len result.of ≡ map (map (λ n. slice_index keys.now n)) (listed case.now) }
{
    let [p, q, r] = case.of;
    if case.len == 1 {
        return Pieces {
            len: 1,
            of: [at_places(keys, p), [0; 4], [0; 4]],
        };
    }
    Pieces {
        len: case.len,
        of: [at_places(keys, p), at_places(keys, q), at_places(keys, r)],
    }
}

/// Those of ten that stand in four places, as the keys, or the numbers, of the nodes of a piece.
#[inline(always)]
pub fn at_places(ten: &[u32; 10], places: [u8; 4]) -> [u32; 4]
    requires { IsTrue (list_all (λ n. nat_lt n 10) places) }
    ensures { result ≡ map (λ n. slice_index ten.now n) places }
{
    let [a, b, c, d] = places;
    [
        ten[usize::from(a)],
        ten[usize::from(b)],
        ten[usize::from(c)],
        ten[usize::from(d)],
    ]
}
