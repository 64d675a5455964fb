//! The table: what is kept with each of the 81 lists of four signs.
ghost use Rattle.std.specs.Prelude.{◌≡◌, ◌<◌};
ghost use Rattle.corner_table.specs.Rows.{solid_at, sign_number};

use crate::{Shape, Sign};

/// What is kept with some signs: the numbers of its nodes among the ten that a tetrahedron can have.
#[derive(Clone, Copy)]
pub struct Solid {
    pub shape: Shape,
    pub nodes: [u8; 6],
}

// The number of a whole vertex by its slot, or of the cut between two slots.
macro_rules! node {
    (0) => { 0 };
    (1) => { 4 };
    (2) => { 7 };
    (3) => { 9 };
    (0 1) => { 1 };
    (1 0) => { 1 };
    (0 2) => { 2 };
    (2 0) => { 2 };
    (0 3) => { 3 };
    (3 0) => { 3 };
    (1 2) => { 5 };
    (2 1) => { 5 };
    (1 3) => { 6 };
    (3 1) => { 6 };
    (2 3) => { 8 };
    (3 2) => { 8 };
}

macro_rules! tetra {
    ([$($a:tt)*] [$($b:tt)*] [$($c:tt)*] [$($d:tt)*]) => {
        Solid { shape: Shape::Tetra, nodes: [node!($($a)*), node!($($b)*), node!($($c)*), node!($($d)*), 0, 0] }
    };
}

macro_rules! pyramid {
    ([$($a:tt)*] [$($b:tt)*] [$($c:tt)*] [$($d:tt)*] [$($e:tt)*]) => {
        Solid { shape: Shape::Pyramid, nodes: [node!($($a)*), node!($($b)*), node!($($c)*), node!($($d)*), node!($($e)*), 0] }
    };
}

macro_rules! prism {
    ([$($a:tt)*] [$($b:tt)*] [$($c:tt)*] [$($d:tt)*] [$($e:tt)*] [$($f:tt)*]) => {
        Solid { shape: Shape::Prism, nodes: [node!($($a)*), node!($($b)*), node!($($c)*), node!($($d)*), node!($($e)*), node!($($f)*)] }
    };
}

// The ten shapes, by the plus, zero and minus slots. Without a plus vertex nothing is kept.
//   whole:    the faces are the facets
//   tip:      what the cuts or the zero vertices leave of the tetrahedron at its one plus vertex
//   pyramid:  the apex is the zero vertex; the base is the two plus vertices and their cuts, on the face without the apex
//   wedge:    a triangle at each of two plus vertices, of the vertex and its two cuts
//   frustum:  the triangle of the plus vertices, and that of their cuts to the one minus vertex
macro_rules! solid {
    ([] $z:tt $m:tt) => { Solid { shape: Shape::Nothing, nodes: [0; 6] } };
    /* whole   */ ([$a:tt $b:tt $c:tt $d:tt] [] []) => { tetra!([$a] [$b] [$c] [$d]) };
    /* whole   */ ([$a:tt $b:tt $c:tt] [$d:tt] []) => { tetra!([$a] [$b] [$c] [$d]) };
    /* whole   */ ([$a:tt $b:tt] [$c:tt $d:tt] []) => { tetra!([$a] [$b] [$c] [$d]) };
    /* whole   */ ([$a:tt] [$b:tt $c:tt $d:tt] []) => { tetra!([$a] [$b] [$c] [$d]) };
    /* tip     */ ([$a:tt] [] [$m:tt $n:tt $o:tt]) => { tetra!([$a] [$a $m] [$a $n] [$a $o]) };
    /* tip     */ ([$a:tt] [$z:tt] [$m:tt $n:tt]) => { tetra!([$a] [$z] [$a $m] [$a $n]) };
    /* tip     */ ([$a:tt] [$y:tt $z:tt] [$m:tt]) => { tetra!([$a] [$y] [$z] [$a $m]) };
    /* pyramid */ ([$a:tt $b:tt] [$z:tt] [$m:tt]) => { pyramid!([$z] [$a] [$b] [$b $m] [$a $m]) };
    /* wedge   */ ([$a:tt $b:tt] [] [$m:tt $n:tt]) => { prism!([$a] [$a $m] [$a $n] [$b] [$b $m] [$b $n]) };
    /* frustum */ ([$a:tt $b:tt $c:tt] [] [$m:tt]) => { prism!([$a] [$b] [$c] [$a $m] [$b $m] [$c $m]) };
}

// Three entries for the signs of the first slot that is left, minus before zero before plus; the slots met so far
// stand in three lists, by their signs.
macro_rules! solids {
    ([$($p:tt)*] [$($z:tt)*] [$($m:tt)*]) => { solid!([$($p)*] [$($z)*] [$($m)*]) };
    ([$($p:tt)*] [$($z:tt)*] [$($m:tt)*] $slot:tt $($rest:tt)*) => {
        [
            solids!([$($p)*] [$($z)*] [$($m)* $slot] $($rest)*),
            solids!([$($p)*] [$($z)* $slot] [$($m)*] $($rest)*),
            solids!([$($p)* $slot] [$($z)*] [$($m)*] $($rest)*),
        ]
    };
}

static SOLIDS: [[[[Solid; 3]; 3]; 3]; 3] = solids!([] [] [] 0 1 2 3);

/// What the table has for four signs.
pub fn solid_of(signs: [Sign; 4]) -> &'static Solid
    ensures { result.now ≡ solid_at signs }
{
    let [a, b, c, d] = signs;
    &SOLIDS[number_of(a)][number_of(b)][number_of(c)][number_of(d)]
}

fn number_of(sign: Sign) -> usize
    ensures value { result ≡ sign_number sign }
    ensures below { result < 3 }
{
    match sign {
        Sign::Minus => 0,
        Sign::Zero => 1,
        Sign::Plus => 2,
    }
}
