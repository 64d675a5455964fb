use crate::lines::{corner, is_written, signs};
use corner_table::Sign::{Minus, Plus, Zero};
use corner_table::{Case, Row, Shape, row_of};
use table_lines::{cut, number};

// The signs of the four slots, the solid that is kept, its nodes, and its facets.
const ROWS: &[u8] = b"\
---- nothing||
0-0- nothing||
++++ tetra|0 1 2 3|123 023 013 012
+++0 tetra|0 1 2 3|123 023 013 012
+0+0 tetra|0 2 1 3|123 023 013 012
00+0 tetra|2 0 1 3|123 023 013 012
+--- tetra|0 01 02 03|123 023 013 012
0-+- tetra|2 0 12 23|123 023 013 012
0+0- tetra|1 0 2 13|123 023 013 012
+0+- pyramid|1 0 2 23 03|1234 012 023 034 041
+-+- prism|0 01 03 2 12 23|012 345 0143 1254 2035
++-+ prism|0 1 3 02 12 23|012 345 0143 1254 2035
";

// How many of the 81 rows have each solid.
const COUNTS: &[u8] = b"\
nothing 16
tetra 43
pyramid 12
prism 10
";

fn name(shape: Shape) -> &'static [u8] {
    match shape {
        Shape::Nothing => b"nothing",
        Shape::Tetra => b"tetra",
        Shape::Pyramid => b"pyramid",
        Shape::Prism => b"prism",
    }
}

fn has_nodes(row: &Row, text: &[u8]) -> bool {
    let mut rest = text;
    let mut met = 0u8;
    while !rest.is_empty() {
        let (node, behind) = cut(rest, b' ');
        match row.kept.get(usize::from(met)) {
            Some(kept) if *kept == corner(node) => (),
            _ => return false,
        }
        met = met.wrapping_add(1);
        rest = behind;
    }
    met == row.len
}

fn has_facets(row: &Row, text: &[u8]) -> bool {
    let mut rest = text;
    let mut met = 0u8;
    while !rest.is_empty() {
        let (ring, behind) = cut(rest, b' ');
        match row.facets.get(usize::from(met)) {
            Some(facet)
                if facet.len <= 4 && is_written(&facet.ring[..usize::from(facet.len)], ring) => (),
            _ => return false,
        }
        met = met.wrapping_add(1);
        rest = behind;
    }
    met == row.facets_len
}

#[test]
fn rows_of_all_shapes(rt: HostRuntime) {
    let mut rest = ROWS;
    while !rest.is_empty() {
        let (line, behind) = cut(rest, b'\n');
        let (four, line) = cut(line, b' ');
        let (shape, line) = cut(line, b'|');
        let (nodes, facets) = cut(line, b'|');
        let row = row_of(signs(four));
        assert_eq!(rt; name(row.shape), shape);
        assert!(rt; has_nodes(&row, nodes) && has_facets(&row, facets));
        rest = behind;
    }
}

// How many of the 81 rows have the solid of this name.
fn rows_with(shape: &[u8]) -> u32 {
    let mut found: u32 = 0;
    for a in [Minus, Zero, Plus] {
        for b in [Minus, Zero, Plus] {
            for c in [Minus, Zero, Plus] {
                for d in [Minus, Zero, Plus] {
                    if name(row_of([a, b, c, d]).shape) == shape {
                        found = found.wrapping_add(1);
                    }
                }
            }
        }
    }
    found
}

#[test]
fn shapes_are_counted(rt: HostRuntime) {
    let mut rest = COUNTS;
    while !rest.is_empty() {
        let (line, behind) = cut(rest, b'\n');
        let (shape, count) = cut(line, b' ');
        assert_eq!(rt; rows_with(shape), number(count));
        rest = behind;
    }
}

#[test]
fn a_wedge_by_its_counts(rt: HostRuntime) {
    let row = Case::<2, 0, 2>::row([Plus, Minus, Plus, Minus]);
    assert!(rt; row == row_of([Plus, Minus, Plus, Minus]));
}
