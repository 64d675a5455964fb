ghost use Rattle.std.specs.Prelude.{◌≡◌, ◌+◌, ◌^◌, ◌<◌, ◌≤◌, ◌++◌, All, map, take, MatchOption, option_to_list, Some, None, true, IfSome};
ghost use Rattle.definitions.specs.Lattice.{IsDims, InDomain, id, neighbour};
ghost use Rattle.definitions.specs.Tetrahedra.{IsLatticeTet, tets_from};
ghost use Rattle.lattice_laws.specs.NumberedTetrahedra.{IsNumberedTet};
ghost use Rattle.bcc_lattice.specs.TetLists.{tets_of, tet_of_four, IsNumbered, NumbersNeighbour};

use crate::Dir;
use crate::vertices::{id, neighbour};
use st_base::{Dims, Vertex};

/// A lattice tetrahedron: its vertices in order, and their ids.
#[derive(Clone, Copy, Debug, PartialEq, Eq)]
pub struct Tet {
    pub at: [Vertex; 4],
    pub ids: [u32; 4],
}

/// The lattice tetrahedra with one lowest vertex: the first `len` of these.
#[derive(Clone, Copy, Debug, PartialEq, Eq)]
pub struct TetsAt {
    pub len: u8,
    pub of: [Tet; 6],
}

/// A vertex with its id.
#[derive(Clone, Copy)]
struct Numbered {
    vertex: Vertex,
    id: u32,
}

/// The neighbour upwards in a direction, with its id, if it is in the domain.
fn later(dims: Dims, v: Vertex, number: u8) -> Option<Numbered>
    requires sizes { IsDims dims }
    requires domain { InDomain dims v }
    requires low { 1 ≤ number }
    requires high { number ≤ 7 }
    ensures { NumbersNeighbour dims v number result }
{
    let Some(dir) = Dir::new(number) else {
        unreachable!()
    };
    let vertex = neighbour(dims, v, dir, true)?;
    Some(Numbered {
        vertex,
        id: id(dims, vertex),
    })
}

/// One more tetrahedron at the end, if its three upper vertices are there.
fn push(
    tets: &mut TetsAt,
    lowest: Numbered,
    a: Option<Numbered>,
    b: Option<Numbered>,
    c: Option<Numbered>,
)
    requires { tets.old.len < 6 }
    ensures more { tets_of tets.new ≡ tets_of tets.old ++ option_to_list (tet_of_four lowest a b c) }
    ensures len { tets.new.len ≤ tets.old.len + 1 }
{
    let (Some(a), Some(b), Some(c)) = (a, b, c) else {
        return;
    };
    tets.of[tets.len as usize] = Tet {
        at: [lowest.vertex, a.vertex, b.vertex, c.vertex],
        ids: [lowest.id, a.id, b.id, c.id],
    };
    tets.len += 1;
}

/// The lattice tetrahedra whose lowest vertex is `v`, in order.
///
/// They are those of the six triples of directions (1, 4, 6), (2, 5, 6), (3, 4, 7), (3, 5, 7), (4, 6, 7)
/// and (5, 6, 7) whose three vertices are in the domain.
pub fn tets_at(dims: Dims, v: Vertex) -> TetsAt
    requires sizes { IsDims dims }
    requires domain { InDomain dims v }
    ensures len { result.len ≤ 6 }
    ensures tets { map (λ tet. tet.at) (tets_of result) ≡ tets_from dims v }
    ensures ids { map (λ tet. tet.ids) (tets_of result) ≡ map (map (id dims)) (tets_from dims v) }
    ensures lattice { All (λ tet. IsLatticeTet dims tet.at) (tets_of result) }
    ensures numbered { All (λ tet. IsNumberedTet tet.at tet.ids) (tets_of result) }
{
    let lowest = Numbered {
        vertex: v,
        id: id(dims, v),
    };
    let none = Tet {
        at: [v; 4],
        ids: [lowest.id; 4],
    };
    let mut tets = TetsAt {
        len: 0,
        of: [none; 6],
    };
    let first = later(dims, v, 1);
    let second = later(dims, v, 2);
    let third = later(dims, v, 3);
    let fourth = later(dims, v, 4);
    let fifth = later(dims, v, 5);
    let sixth = later(dims, v, 6);
    let seventh = later(dims, v, 7);
    push(&mut tets, lowest, first, fourth, sixth);
    push(&mut tets, lowest, second, fifth, sixth);
    push(&mut tets, lowest, third, fourth, seventh);
    push(&mut tets, lowest, third, fifth, seventh);
    push(&mut tets, lowest, fourth, sixth, seventh);
    push(&mut tets, lowest, fifth, sixth, seventh);
    tets
}
