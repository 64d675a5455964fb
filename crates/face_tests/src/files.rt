ghost use Rattle.std.specs.Prelude.{◌≡◌, ◌≤◌, length, false};
ghost use Rattle.adjacency.specs.Laws.{NodesDiffer, ShareByTwo};
ghost use Rattle.adjacency.specs.Neighbours.{neighbours as neighbours_lem};
ghost use Rattle.formats.specs.declared.Port.TheVariants.{Face, Neigh};

use crate::expected::{FACES_FROM_ONE, FACES_FROM_ZERO, NEIGHBOURS_FROM_ONE, NEIGHBOURS_FROM_ZERO};
use crate::meshes::TETS;
use desk_mem::MemDesk;
use face_files::{put_faces, put_neighbours};
use face_neigh::neighbours;
use node_ele_write::PutFault;
use st_base::{Desk, Port};
use std::alloc::Global;

// Opens Face and writes the boundary triangles to it.
fn faces_to<D: Desk>(
    alloc: Global,
    desk: &mut D,
    tets: &[[u32; 4]],
    across: &[[Option<u32>; 4]],
    numbering: u32,
) -> Result<(), PutFault>
    requires closed { (D.ports desk.old Face).is_open ≡ false }
    requires differ { NodesDiffer tets.now }
    requires by_two { ShareByTwo tets.now }
    requires across { across.now ≡ neighbours_lem tets.now }
    requires few { length tets.now ≤ 33554432 }
    requires numbering { numbering ≤ 1 }
{
    let Ok(()) = desk.open_output(Port::Face, b"out.face") else {
        return Err(PutFault::WriteFault);
    };
    put_faces(alloc, desk, Port::Face, tets, across, numbering)
}

// Opens Neigh and writes the neighbours to it.
fn neighbours_to<D: Desk>(
    alloc: Global,
    desk: &mut D,
    across: &[[Option<u32>; 4]],
    numbering: u32,
) -> Result<(), PutFault>
    requires closed { (D.ports desk.old Neigh).is_open ≡ false }
    requires few { length across.now ≤ 33554432 }
    requires numbering { numbering ≤ 1 }
{
    let Ok(()) = desk.open_output(Port::Neigh, b"out.neigh") else {
        return Err(PutFault::WriteFault);
    };
    put_neighbours(alloc, desk, Port::Neigh, across, numbering)
}

#[test]
fn faces_of_one_sample_are_written(rt: HostRuntime) {
    let alloc = rt.alloc();
    let across = neighbours(alloc, &TETS).expect(&rt, "memory");
    let mut desk = MemDesk::new(alloc);
    assert!(rt; faces_to(alloc, &mut desk, &TETS, &across, 0).is_ok());
    assert_eq!(rt; desk.text(Port::Face), FACES_FROM_ZERO);
    let mut desk = MemDesk::new(alloc);
    assert!(rt; faces_to(alloc, &mut desk, &TETS, &across, 1).is_ok());
    assert_eq!(rt; desk.text(Port::Face), FACES_FROM_ONE);
}

#[test]
fn neighbours_of_one_sample_are_written(rt: HostRuntime) {
    let alloc = rt.alloc();
    let across = neighbours(alloc, &TETS).expect(&rt, "memory");
    for (numbering, wanted) in [(0, NEIGHBOURS_FROM_ZERO), (1, NEIGHBOURS_FROM_ONE)] {
        let mut desk = MemDesk::new(alloc);
        let done = neighbours_to(alloc, &mut desk, &across, numbering);
        assert!(rt; done.is_ok());
        assert_eq!(rt; desk.text(Port::Neigh), wanted);
    }
}

#[test]
fn files_without_tetrahedra(rt: HostRuntime) {
    let alloc = rt.alloc();
    let across = neighbours(alloc, &[]).expect(&rt, "memory");
    let mut desk = MemDesk::new(alloc);
    assert!(rt; faces_to(alloc, &mut desk, &[], &across, 0).is_ok());
    assert_eq!(rt; desk.text(Port::Face), b"0 0\n".as_slice());
    let mut desk = MemDesk::new(alloc);
    assert!(rt; neighbours_to(alloc, &mut desk, &across, 0).is_ok());
    assert_eq!(rt; desk.text(Port::Neigh), b"0 4\n".as_slice());
}

#[test]
fn port_that_takes_three_bytes(rt: HostRuntime) {
    let alloc = rt.alloc();
    let across = neighbours(alloc, &TETS).expect(&rt, "memory");
    let mut desk = MemDesk::new(alloc);
    desk.fail_output_after(Port::Neigh, 3);
    let done = neighbours_to(alloc, &mut desk, &across, 0);
    assert_eq!(rt; done, Err(PutFault::WriteFault));
    assert_eq!(rt; desk.text(Port::Neigh), b"24 ".as_slice());
    assert_eq!(rt; desk.faults(Port::Neigh), 1);
}
