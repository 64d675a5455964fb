ghost use Rattle.std.specs.Prelude.{◌+◌, ◌*◌, ◌^◌, ◌<◌, All};
ghost use Rattle.lattice_laws.specs.NumberedTetrahedra.{IsNumberedTet};

use crate::lines::signs;
use stencils::{Corner, Pieces, Tet, Vertex, node_key, pieces};
use table_lines::{cut, number};

// The signs of the four vertices, and the keys of the nodes of each piece.
const PIECES: &[u8] = b"\
----|
++++|80 160 168 320
++--|80 84 87 166,80 84 166 161,80 160 161 166
";

// A vertex with its neighbours in directions 3, 4 and 7.
fn standing() -> Tet
    ensures fit { All (λ id. 8 * id + 7 < 2 ^ 32) result.ids }
    ensures numbered { IsNumberedTet result.at result.ids }
{
    Tet {
        at: [
            Vertex { h: 2, y: 2, x: 2 },
            Vertex { h: 3, y: 1, x: 1 },
            Vertex { h: 3, y: 1, x: 3 },
            Vertex { h: 4, y: 2, x: 2 },
        ],
        ids: [10, 20, 21, 40],
    }
}

fn keys(text: &[u8]) -> [u32; 4] {
    let (a, rest) = cut(text, b' ');
    let (b, rest) = cut(rest, b' ');
    let (c, d) = cut(rest, b' ');
    [number(a), number(b), number(c), number(d)]
}

fn are_written(found: &Pieces, text: &[u8]) -> bool {
    let mut rest = text;
    let mut met = 0u8;
    while !rest.is_empty() {
        let (piece, behind) = cut(rest, b',');
        match found.of.get(usize::from(met)) {
            Some(nodes) if *nodes == keys(piece) => (),
            _ => return false,
        }
        met = met.wrapping_add(1);
        rest = behind;
    }
    met == found.len
}

#[test]
fn pieces_by_signs(rt: HostRuntime) {
    let tet = standing();
    let mut rest = PIECES;
    while !rest.is_empty() {
        let (line, behind) = cut(rest, b'\n');
        let (four, wanted) = cut(line, b'|');
        let found = pieces(&tet, signs(four));
        assert!(rt; are_written(&found, wanted));
        rest = behind;
    }
}

#[test]
fn the_key_of_a_cut(rt: HostRuntime) {
    assert_eq!(rt; node_key(&standing(), Corner::Cut(1, 3)), 166);
}
