ghost use Rattle.std.specs.Prelude.{◌<◌, ◌≤◌, ℕ, unsigned_abs};
ghost use Rattle.exact.specs.Dominance.{entry};
ghost use Rattle.lattice_laws.specs.NumberedTetrahedra.{IsNumberedTet};
ghost use Rattle.moved_matrix.specs.Moved.{is_near_at};

use crate::first::FIRST;
use conform_laws::{State, Tet, contract_step, det, dominant, moved_matrix};
use st_base::Vertex;

// A vertex with its neighbours in directions 1, 4 and 6.
fn lattice_tet() -> Tet
    ensures { IsNumberedTet result.at result.ids }
{
    Tet {
        at: [
            Vertex { h: 2, y: 2, x: 2 },
            Vertex { h: 2, y: 2, x: 4 },
            Vertex { h: 3, y: 1, x: 3 },
            Vertex { h: 3, y: 3, x: 3 },
        ],
        ids: [10, 11, 20, 21],
    }
}

// The lowest vertex is moved onto cut k of an edge upwards.
fn lowest_moved(edge: u8, k: u16) -> [State; 4]
    requires low { 1 ≤ edge }
    requires high { edge ≤ 7 }
    requires near { k ≤ 1023 }
    ensures { (s : ℕ) → s < 4 → is_near_at result s }
{
    [
        State::Zero { edge, k },
        State::Minus,
        State::Minus,
        State::Minus,
    ]
}

// The first row has a diagonal that is the sum of the sizes of the rest.
fn level_row() -> [[i32; 4]; 4]
    ensures { (i j : ℕ) → i < 4 → j < 4 → unsigned_abs (entry result i j) ≤ 16384 }
{
    [
        [6144, -2048, 2048, 2048],
        [0, 8192, 0, 0],
        [0, 0, 8192, 0],
        [0, 0, 0, 8192],
    ]
}

#[test]
fn volume_of_the_first_tetrahedron(rt: HostRuntime) {
    assert_eq!(rt; det(FIRST), 44894461952);
}

#[test]
fn rows_of_a_moved_vertex(rt: HostRuntime) {
    let tet = lattice_tet();
    let along = moved_matrix(&tet, lowest_moved(1, 1000));
    let up = moved_matrix(&tet, lowest_moved(7, 1000));
    for (matrix, first) in [(along, [6192, 2000, 0, 0]), (up, [6192, -2000, 2000, 2000])] {
        let [a, b, c, d] = matrix;
        assert_eq!(rt; a, first);
        assert_eq!(rt; (b[1], c[2], d[3]), (8192, 8192, 8192));
    }
    assert!(rt; dominant(up));
    assert!(rt; !dominant(level_row()));
    contract_step(&tet, lowest_moved(7, 1000), [1, 2, 3, 4], [4, 3, 2, 1]);
}
