//! The table of stencils: what is kept of a lattice tetrahedron, by the signs of its four vertices.
//!
//! There are 81 rows, of ten shapes. A row has the kept nodes by the slots of the sorted tetrahedron,
//! and the facets of what is kept as rings of positions among these nodes.
#![tactic(auto)]

ghost use Rattle.std.specs.Prelude.{◌≡◌, IsTrue, count_by, map};
ghost use Rattle.definitions.specs.Stencils.{is_plus, is_zero, is_minus};
ghost use Rattle.corner_table.specs.Rows.{shape_by_counts, row_fits, row_by_signs, shape_row, node_at};

mod table;

pub use definitions::{Corner, Sign};
use table::solid_of;

/// The solid that is kept.
#[derive(Clone, Copy, Debug, PartialEq, Eq)]
pub enum Shape {
    /// No vertex is plus.
    Nothing,
    /// Four nodes, in any order.
    Tetra,
    /// The apex, then the ring of the base.
    Pyramid,
    /// One triangle, then the three nodes across from it in the same order.
    Prism,
}

/// A facet: the positions of `len` kept nodes, in ring order.
#[derive(Clone, Copy, Debug, PartialEq, Eq)]
pub struct Facet {
    pub len: u8,
    pub ring: [u8; 4],
}

/// A row of the table: the first `len` of `kept` are the kept nodes, and the first `facets_len` of `facets` their facets.
#[derive(Clone, Copy, Debug, PartialEq, Eq)]
pub struct Row {
    pub shape: Shape,
    pub len: u8,
    pub kept: [Corner; 6],
    pub facets_len: u8,
    pub facets: [Facet; 5],
}

/// The row of these signs of the four slots.
///
/// Its nodes are those that are kept, each once, and its facets are those of what is kept, each once;
/// in a facet of four the ring places 0 and 2, and 1 and 3, are opposite.
///
/// ```
/// let row = row_of([Sign::Plus, Sign::Minus, Sign::Plus, Sign::Minus]);
/// assert_eq!(row.shape, Shape::Prism);
/// assert_eq!(row.kept[1], Corner::Cut(0, 1));
/// ```
pub fn row_of(signs: [Sign; 4]) -> Row
    ensures row { result ≡ row_by_signs signs }
    ensures fits { IsTrue (row_fits signs result) }
    ensures shape { result.shape ≡ shape_by_counts (count_by is_plus signs) (count_by is_zero signs) (count_by is_minus signs) }
{
    let solid = solid_of(signs);
    row_of_shape(solid.shape, nodes_of(solid.nodes))
}

// The nodes that a tetrahedron can have.
const NODES: [Corner; 10] = [
    Corner::Whole(0),
    Corner::Cut(0, 1),
    Corner::Cut(0, 2),
    Corner::Cut(0, 3),
    Corner::Whole(1),
    Corner::Cut(1, 2),
    Corner::Cut(1, 3),
    Corner::Whole(2),
    Corner::Cut(2, 3),
    Corner::Whole(3),
];

fn nodes_of(numbers: [u8; 6]) -> [Corner; 6]
    ensures { result ≡ map node_at numbers }
{
    let [a, b, c, d, e, f] = numbers;
    [
        node_of(a),
        node_of(b),
        node_of(c),
        node_of(d),
        node_of(e),
        node_of(f),
    ]
}

fn node_of(number: u8) -> Corner
    ensures { result ≡ node_at number }
{
    NODES
        .get(usize::from(number))
        .copied()
        .unwrap_or(Corner::Whole(0))
}

macro_rules! facet {
    () => { Facet { len: 0, ring: [0, 0, 0, 0] } };
    ($a:literal $b:literal $c:literal) => { Facet { len: 3, ring: [$a, $b, $c, 0] } };
    ($a:literal $b:literal $c:literal $d:literal) => { Facet { len: 4, ring: [$a, $b, $c, $d] } };
}

// A tetrahedron has four triangles, each without one node. The facets of a pyramid are its base, and the apex with
// each side of it; those of a prism its triangles, and a ring for each side of the one and the side across from it.
fn row_of_shape(shape: Shape, kept: [Corner; 6]) -> Row
    ensures { result ≡ shape_row shape kept }
{
    match shape {
        Shape::Nothing => Row {
            shape,
            len: 0,
            kept,
            facets_len: 0,
            facets: [facet!(); 5],
        },
        Shape::Tetra => Row {
            shape,
            len: 4,
            kept,
            facets_len: 4,
            facets: [
                facet!(1 2 3),
                facet!(0 2 3),
                facet!(0 1 3),
                facet!(0 1 2),
                facet!(),
            ],
        },
        Shape::Pyramid => Row {
            shape,
            len: 5,
            kept,
            facets_len: 5,
            facets: [
                facet!(1 2 3 4),
                facet!(0 1 2),
                facet!(0 2 3),
                facet!(0 3 4),
                facet!(0 4 1),
            ],
        },
        Shape::Prism => Row {
            shape,
            len: 6,
            kept,
            facets_len: 5,
            facets: [
                facet!(0 1 2),
                facet!(3 4 5),
                facet!(0 1 4 3),
                facet!(1 2 5 4),
                facet!(2 0 3 5),
            ],
        },
    }
}

/// The cases with these numbers of plus, zero and minus vertices.
pub struct Case<const P: u8, const Z: u8, const M: u8>;

impl<const P: u8, const Z: u8, const M: u8> Case<P, Z, M> {
    /// The same row as [`row_of`], of the shape that goes with the three numbers.
    pub fn row(signs: [Sign; 4]) -> Row
        requires plus { count_by is_plus signs ≡ P }
        requires zero { count_by is_zero signs ≡ Z }
        requires minus { count_by is_minus signs ≡ M }
        ensures row { result ≡ row_by_signs signs }
        ensures fits { IsTrue (row_fits signs result) }
        ensures shape { result.shape ≡ shape_by_counts P Z M }
    {
        row_of(signs)
    }
}
