ghost use Rattle.std.specs.Prelude.{◌≡◌, ◌+◌, ◌<◌, ◌≤◌, ◌^◌, ◌++◌, ℕ, List, length, IfOk, OnOk};
ghost use Rattle.adjacency.specs.Laws.{NodesDiffer, ShareByTwo};
ghost use Rattle.adjacency.specs.Neighbours.{neighbours};
ghost use Rattle.definitions.specs.Soundness.{boundary};
ghost use Rattle.face_neigh.specs.Open.{one_if, open_triangles};
ghost use Rattle.face_files.specs.FileLines.{face_lines};

use face_neigh::fill_face_line;
use node_ele_write::Line;
use st_base::NoMemory;

// How many triangles of a tetrahedron have no neighbour across.
fn open_count(across: [Option<u32>; 4]) -> u64
    ensures count { (tet : List ℕ) → result ≡ length (open_triangles tet across) }
    ensures few { result ≤ 4 }
{
    let [a, b, c, d] = across;
    u64::from(a.is_none())
        + u64::from(b.is_none())
        + u64::from(c.is_none())
        + u64::from(d.is_none())
}

/// How many boundary triangles there are.
pub fn boundary_count(tets: &[[u32; 4]], across: &[[Option<u32>; 4]]) -> u64
    requires differ { NodesDiffer tets.now }
    requires by_two { ShareByTwo tets.now }
    requires across { across.now ≡ neighbours tets.now }
    requires few { length tets.now ≤ 33554432 }
    ensures { result ≡ length (boundary tets.now) }
{
    let mut count = 0u64;
    for number in 0..tets.len() {
        count += open_count(across[number]);
    }
    count
}

// Appends the line of a triangle if it is asked for, and gives the number of the next one.
fn add_if(
    out: &mut Vec<u8>,
    line: &mut Line,
    asked: bool,
    number: u64,
    triangle: [u32; 3],
    first: u32,
) -> Result<u64, NoMemory>
    requires { number < 2 ^ 63 }
    ensures text { OnOk result (out.new.items ≡ out.old.items ++ face_lines first number (one_if asked triangle)) }
    ensures next { IfOk result (λ next. next ≡ number + length (one_if asked triangle)) }
    ensures few { IfOk result (λ next. next ≤ number + 1) }
{
    if !asked {
        return Ok(number);
    }
    fill_face_line(line, number, triangle, first);
    line.append_to(out)?;
    Ok(number + 1)
}

/// Appends the lines of those triangles of a tetrahedron across which there is no neighbour, and gives the number of the
/// next triangle.
pub fn add_open(
    out: &mut Vec<u8>,
    line: &mut Line,
    number: u64,
    tet: [u32; 4],
    across: [Option<u32>; 4],
    first: u32,
) -> Result<u64, NoMemory>
    requires { number + 4 < 2 ^ 63 }
    ensures text { OnOk result (out.new.items ≡ out.old.items ++ face_lines first number (open_triangles tet across)) }
    ensures next { IfOk result (λ next. next ≡ number + length (open_triangles tet across)) }
    ensures few { IfOk result (λ next. next ≤ number + 4) }
{
    let [a, b, c, d] = tet;
    let second = add_if(out, line, across[3].is_none(), number, [a, c, b], first)?;
    let third = add_if(out, line, across[2].is_none(), second, [a, b, d], first)?;
    let fourth = add_if(out, line, across[1].is_none(), third, [a, d, c], first)?;
    add_if(out, line, across[0].is_none(), fourth, [b, c, d], first)
}
