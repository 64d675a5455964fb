ghost use Rattle.std.specs.Prelude.{◌≡◌, ◌+◌, ◌*◌, ◌<◌, ◌≤◌, ◌^◌, length, IfOk, All};
ghost use Rattle.mesh_files.specs.Files.{IsSmallPlace, items_or_fault, fault_at as fault_with_place};
ghost use Rattle.mesh_files.specs.Forms.{node_line as place_in, tet_line as ranks_in};
ghost use Rattle.mesh_files.specs.Lines.{lines_from};
ghost use Rattle.mesh_read.specs.Told.{Says, items_in};

use crate::forms::{node_line, tet_line};
use crate::lines::next_line;
use mesh_files::{FileHead, LineFault};
use st_base::{MeshFault, Place};
use std::alloc::Global;

// A line's fault at its place.
fn fault_at(place: u64, fault: LineFault) -> MeshFault
    ensures { result ≡ fault_with_place place fault }
{
    match fault {
        LineFault::Form => MeshFault::BadLine { place },
        LineFault::Coordinate => MeshFault::BadPlace { place },
        LineFault::Node => MeshFault::BadNode { place },
    }
}

// The places of nodes on the lines behind the first, where so many bytes stand before the text.
pub fn node_lines(
    alloc: Global,
    text: &[u8],
    before: usize,
    head: FileHead,
    first: u32,
) -> Result<Vec<Place>, MeshFault>
    requires first { first ≤ 1 }
    requires some { 2 ≤ before }
    requires within { before + length text.now ≤ 2 ^ 30 + 1 }
    requires more { 0 < length text.now → before + length text.now ≤ 2 ^ 30 }
    ensures says { Says items_in result
        (items_or_fault (λ i. place_in head.extra (first + i)) head.count (lines_from before text.now)) }
    ensures small { IfOk result (λ v. All IsSmallPlace v.items) }
    ensures few { IfOk result (λ v. length v.items < 2 ^ 30) }
{
    let mut places = Vec::new(alloc);
    let mut rest = text;
    let mut place = before;
    while let Some(line) = next_line(rest, place) {
        if places.len() >= head.count as usize {
            return Err(MeshFault::BadLine {
                place: line.place as u64,
            });
        }
        match node_line(line.content, head.extra, first + places.len() as u32) {
            Ok(node) => {
                if places.push(node).is_err() {
                    return Err(MeshFault::NoMemory);
                }
            }
            Err(fault) => return Err(fault_at(line.place as u64, fault)),
        }
        rest = line.rest;
        place = line.next;
    }
    if places.len() < head.count as usize {
        return Err(MeshFault::EndsEarly {
            got: 1 + places.len() as u64,
            wanted: 1 + u64::from(head.count),
        });
    }
    Ok(places)
}

// The ranks of the nodes of tetrahedra on the lines behind the first, where so many bytes stand before
// the text and `count` nodes have numbers from `first` on.
pub fn tet_lines(
    alloc: Global,
    text: &[u8],
    before: usize,
    head: FileHead,
    first: u32,
    count: u32,
) -> Result<Vec<[u32; 4]>, MeshFault>
    requires first { first ≤ 1 }
    requires count { count < 2 ^ 30 }
    requires some { 2 ≤ before }
    requires within { before + length text.now ≤ 2 ^ 30 + 1 }
    requires more { 0 < length text.now → before + length text.now ≤ 2 ^ 30 }
    ensures says { Says items_in result
        (items_or_fault (λ i. ranks_in first count head.extra (first + i)) head.count (lines_from before text.now)) }
    ensures of_nodes { IfOk result (λ v. All (All (λ n. n < count)) v.items) }
    ensures four { IfOk result (λ v. All (λ t. length t ≡ 4) v.items) }
    ensures few { IfOk result (λ v. length v.items < 2 ^ 30) }
{
    let mut tets = Vec::new(alloc);
    let mut rest = text;
    let mut place = before;
    while let Some(line) = next_line(rest, place) {
        if tets.len() >= head.count as usize {
            return Err(MeshFault::BadLine {
                place: line.place as u64,
            });
        }
        match tet_line(
            line.content,
            first,
            count,
            head.extra,
            first + tets.len() as u32,
        ) {
            Ok(tet) => {
                if tets.push(tet).is_err() {
                    return Err(MeshFault::NoMemory);
                }
            }
            Err(fault) => return Err(fault_at(line.place as u64, fault)),
        }
        rest = line.rest;
        place = line.next;
    }
    if tets.len() < head.count as usize {
        return Err(MeshFault::EndsEarly {
            got: 1 + tets.len() as u64,
            wanted: 1 + u64::from(head.count),
        });
    }
    Ok(tets)
}
