ghost use Rattle.std.specs.Prelude.{◌≡◌, ◌+◌, ◌≤◌, ◌++◌, length, map, OnOk, OnErr};
ghost use Rattle.std.specs.Option.{option_map};
ghost use Rattle.adjacency.specs.Texts.{face_line as face_line_lem, neigh_line as neigh_line_lem, neighbour_text};

use node_ele_write::{Line, ROOM};
use st_base::NoMemory;

// A number from 0 as one from `first`.
fn numbered(number: u32, first: u32) -> u64
    ensures { result ≡ first + number }
{
    u64::from(first) + u64::from(number)
}

/// Makes a line of a boundary triangle: its number, and its nodes, which are numbered from `first` there.
pub fn fill_face_line(line: &mut Line, number: u64, nodes: [u32; 3], first: u32)
    ensures { line.new ≡ face_line_lem (number, map (λ n. first + n) nodes) }
{
    line.clear();
    line.byte(b'\n');
    line.number(numbered(nodes[2], first));
    line.byte(b' ');
    line.number(numbered(nodes[1], first));
    line.byte(b' ');
    line.number(numbered(nodes[0], first));
    line.byte(b' ');
    line.number(number);
}

/// Appends the line of a boundary triangle: its number, and its nodes.
#[tactic(auto, using(crate::proofs::Numbering::face_line_from_zero))]
pub fn face_line(out: &mut Vec<u8>, number: u32, nodes: [u32; 3]) -> Result<(), NoMemory>
    ensures text { OnOk result (out.new.items ≡ out.old.items ++ face_line_lem (number, nodes)) }
    ensures unchanged { OnErr result (out.new.items ≡ out.old.items) }
{
    let mut line = Line::new();
    fill_face_line(&mut line, u64::from(number), nodes, 0);
    line.append_to(out)
}

// Puts the number of a neighbour in front, or -1 where there is none.
fn put_neighbour(line: &mut Line, neighbour: Option<u32>, first: u32)
    requires { length line.old + 20 ≤ ROOM }
    ensures text { line.new ≡ neighbour_text (option_map (λ n. first + n) neighbour) ++ line.old }
    ensures length { length line.new ≤ length line.old + 20 }
{
    match neighbour {
        Some(number) => line.number(numbered(number, first)),
        None => {
            line.byte(b'1');
            line.byte(b'-');
        }
    }
}

/// Makes a line of a tetrahedron's neighbours: its number, and theirs, which are numbered from `first` there, and -1
/// where there is none.
pub fn fill_neigh_line(line: &mut Line, number: u64, neighbours: [Option<u32>; 4], first: u32)
    ensures { line.new ≡ neigh_line_lem (number, map (option_map (λ n. first + n)) neighbours) }
{
    line.clear();
    line.byte(b'\n');
    put_neighbour(line, neighbours[3], first);
    line.byte(b' ');
    put_neighbour(line, neighbours[2], first);
    line.byte(b' ');
    put_neighbour(line, neighbours[1], first);
    line.byte(b' ');
    put_neighbour(line, neighbours[0], first);
    line.byte(b' ');
    line.number(number);
}

/// Appends the line of a tetrahedron's neighbours: its number, and theirs, -1 where there is none.
#[tactic(auto, using(crate::proofs::Numbering::neigh_line_from_zero))]
pub fn neigh_line(
    out: &mut Vec<u8>,
    number: u32,
    neighbours: [Option<u32>; 4],
) -> Result<(), NoMemory>
    ensures text { OnOk result (out.new.items ≡ out.old.items ++ neigh_line_lem (number, neighbours)) }
    ensures unchanged { OnErr result (out.new.items ≡ out.old.items) }
{
    let mut line = Line::new();
    fill_neigh_line(&mut line, u64::from(number), neighbours, 0);
    line.append_to(out)
}
