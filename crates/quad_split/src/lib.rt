//! How quadrilaterals, pyramids and prisms are cut into triangles and tetrahedra, by the keys of their nodes.
//!
//! The one rule: a quadrilateral is cut along the diagonal through its least key ([`split_quad`]).
//! Two solids that share a quadrilateral thus cut it alike. A solid is its least node joined with the
//! triangles of the facets that lack it, so of its quadrilaterals only those are cut that lack the least node.
#![tactic(auto)]

ghost use Rattle.std.specs.Prelude.{◌&&◌, ◌≡◌, ◌≢◌, ◌<◌, ◌↔◌, ◌==◌, min, slice_index, AllPairs, IsPermutation, nat_eq, position};
ghost use Rattle.std.specs.List.{range_with_len};
ghost use Rattle.std.specs.List.Sorted.{IsNonDecreasingBy};
ghost use Rattle.definitions.specs.Facets.{holds, by_key, fill, pyramid_facets, prism_facets};
ghost use Rattle.quad_split.specs.Cutting.{without, place_of, two_without, found_with, is_cut, far_triangle, far_ring, in_order_of};

/// A diagonal of a quadrilateral: through its ring places 0 and 2, or 1 and 3.
#[derive(Clone, Copy, Debug, PartialEq, Eq)]
pub enum Diagonal {
    First,
    Second,
}

/// The diagonal through the least key.
///
/// ```
/// let ring = [5, 2, 9, 7];
/// assert_eq!(split_quad(ring), Diagonal::Second);
/// ```
pub fn split_quad(ring: [u32; 4]) -> Diagonal
    requires { AllPairs (λ a b. a ≢ b) ring }
    ensures first { (result ≡ Diagonal.First) ↔ (min (slice_index ring 0) (slice_index ring 2) < min (slice_index ring 1) (slice_index ring 3)) }
    ensures second { (result ≡ Diagonal.Second) ↔ (min (slice_index ring 1) (slice_index ring 3) < min (slice_index ring 0) (slice_index ring 2)) }
{
    if ring[0].min(ring[2]) < ring[1].min(ring[3]) {
        Diagonal::First
    } else {
        Diagonal::Second
    }
}

/// The two pieces of a pyramid, as positions of its apex 0 and the ring 1 to 4 of its base.
///
/// Each piece stands by ascending key, and the pieces in the order of their keys.
pub fn split_pyramid(keys: [u32; 5]) -> [[u8; 4]; 2]
    requires { AllPairs (λ a b. a ≢ b) keys }
    ensures { result ≡ fill nat_eq pyramid_facets (by_key (λ p. slice_index keys p) (range_with_len 0 5)) }
{
    let mut order = [0, 1, 2, 3, 4];
    sort_positions(&keys, &mut order);
    match split_quad([keys[1], keys[2], keys[3], keys[4]]) {
        Diagonal::First => leave_out_each(order, 2, 4),
        Diagonal::Second => leave_out_each(order, 1, 3),
    }
}

/// The three pieces of a prism, as positions of one triangle 0, 1, 2 and the nodes 3, 4, 5 across in the same order.
///
/// Each piece stands by ascending key, and the pieces in the order of their keys.
pub fn split_prism(keys: [u32; 6]) -> [[u8; 4]; 3]
    requires { AllPairs (λ a b. a ≢ b) keys }
    ensures { result ≡ fill nat_eq prism_facets (by_key (λ p. slice_index keys p) (range_with_len 0 6)) }
{
    let mut order = [0, 1, 2, 3, 4, 5];
    sort_positions(&keys, &mut order);
    let [a, b, c, d] = ring_lacking(order[0]);
    let far = triangle_lacking(order[0]);
    match split_quad([
        key_at(&keys, a),
        key_at(&keys, b),
        key_at(&keys, c),
        key_at(&keys, d),
    ]) {
        Diagonal::First => in_order(order, [far, [a, b, c], [a, c, d]]),
        Diagonal::Second => in_order(order, [far, [a, b, d], [b, c, d]]),
    }
}

// The key of a position, and 0 past the last.
fn key_at(keys: &[u32], position: u8) -> u32
    ensures { result ≡ slice_index keys.now position }
{
    keys.get(usize::from(position)).copied().unwrap_or(0)
}

// Puts positions in the order of their keys.
fn sort_positions(keys: &[u32], positions: &mut [u8])
    ensures permutation { IsPermutation positions.old positions.new }
    ensures sorted { IsNonDecreasingBy (λ p. slice_index keys.now p) positions.new }
{
    positions.sort_unstable_by_key(|p| key_at(keys, *p));
}

// The place of a position in an order that has it.
fn place(order: &[u8], position: u8) -> usize
    ensures { result ≡ place_of order.now position }
{
    find_place(order, position).unwrap_or(0)
}

fn find_place(order: &[u8], sought: u8) -> Option<usize>
    ensures { result ≡ position (λ p. p == sought) order.now }
{
    order.iter().position(|p| *p == sought)
}

// The order without one of its places.
fn leave_out(order: [u8; 5], place: usize) -> [u8; 4]
    ensures { result ≡ without order place }
{
    [
        order[if 0 < place { 0 } else { 1 }],
        order[if 1 < place { 1 } else { 2 }],
        order[if 2 < place { 2 } else { 3 }],
        order[if 3 < place { 3 } else { 4 }],
    ]
}

// The two pieces that leave out one of two positions each: the one that leaves out the later comes first.
fn leave_out_each(order: [u8; 5], a: u8, b: u8) -> [[u8; 4]; 2]
    ensures { result ≡ two_without order a b }
{
    let p = place(&order, a);
    let q = place(&order, b);
    if q < p {
        [leave_out(order, p), leave_out(order, q)]
    } else {
        [leave_out(order, q), leave_out(order, p)]
    }
}

// The triangle of a prism that lacks a position.
fn triangle_lacking(least: u8) -> [u8; 3]
    ensures { result ≡ far_triangle least }
{
    if least < 3 { [3, 4, 5] } else { [0, 1, 2] }
}

// The quadrilateral of a prism that lacks a position.
fn ring_lacking(least: u8) -> [u8; 4]
    ensures { result ≡ far_ring least }
{
    match least {
        0 | 3 => [1, 2, 5, 4],
        1 | 4 => [2, 0, 3, 5],
        _ => [0, 1, 4, 3],
    }
}

// The pieces found so far, in order.
#[derive(Clone, Copy)]
struct Found {
    len: u8,
    of: [[u8; 4]; 3],
}

// The pieces with one more at the end, if it is wanted and there is room.
fn with_piece(found: Found, wanted: bool, piece: [u8; 4]) -> Found
    ensures { result ≡ found_with found wanted piece }
{
    let mut after = found;
    if wanted && found.len < 3 {
        after.of[found.len as usize] = piece;
        after.len += 1;
    }
    after
}

// Whether the three positions are one of the triangles.
fn is_triangle(triangles: [[u8; 3]; 3], a: u8, b: u8, c: u8) -> bool
    ensures { result ≡ is_cut triangles a b c }
{
    holds_all(triangles[0], a, b, c)
        || holds_all(triangles[1], a, b, c)
        || holds_all(triangles[2], a, b, c)
}

fn holds_all(triangle: [u8; 3], a: u8, b: u8, c: u8) -> bool
    ensures { result ≡ (holds nat_eq triangle a && (holds nat_eq triangle b && holds nat_eq triangle c)) }
{
    holds_one(triangle, a) && holds_one(triangle, b) && holds_one(triangle, c)
}

fn holds_one(triangle: [u8; 3], a: u8) -> bool
    ensures { result ≡ holds nat_eq triangle a }
{
    a == triangle[0] || a == triangle[1] || a == triangle[2]
}

// The least position with each of the triples of later places, in order, that is a triangle.
macro_rules! pieces_in_order {
    ($order:ident $triangles:ident; $($a:literal $b:literal $c:literal),*) => {{
        let found = Found { len: 0, of: [[0; 4]; 3] };
        $(
            let wanted = is_triangle($triangles, $order[$a], $order[$b], $order[$c]);
            let found = with_piece(found, wanted, [$order[0], $order[$a], $order[$b], $order[$c]]);
        )*
        found.of
    }};
}

fn in_order(order: [u8; 6], triangles: [[u8; 3]; 3]) -> [[u8; 4]; 3]
    ensures { result ≡ in_order_of order triangles }
{
    pieces_in_order!(order triangles; 1 2 3, 1 2 4, 1 2 5, 1 3 4, 1 3 5, 1 4 5, 2 3 4, 2 3 5, 2 4 5, 3 4 5)
}
