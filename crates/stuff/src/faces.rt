ghost use Rattle.std.specs.Prelude.{◌≡◌, ◌≢◌, ◌≤◌, ℕ, List, true, length, IfErr};
ghost use Rattle.adjacency.specs.Laws.{NodesDiffer, ShareByTwo};
ghost use Rattle.adjacency.specs.Neighbours.{neighbours as neighbours_lem};
ghost use Rattle.adjacency.specs.Texts.{face_text, neigh_text};
ghost use Rattle.definitions.specs.Mesh.{mesh};
ghost use Rattle.definitions.specs.Soundness.{boundary};
ghost use Rattle.definitions.specs.States.{IsShares};
ghost use Rattle.formats.specs.declared.Port.{Port};
ghost use Rattle.formats.specs.declared.Port.TheVariants.{Face, Neigh, Trouble};
ghost use Rattle.st_base.specs.Frames.{OnlyPort};
ghost use Rattle.stuff.specs.Ports.{HasNoFault, IsAtOutput, mesh_files};
ghost use Rattle.stuff.specs.Writing.{Continues, IsThis, Puts};

use crate::finished::finished;
use face_files::{put_faces, put_neighbours};
use face_neigh::neighbours;
use slab_work::list_tets;
use st_base::{Desk, NoMemory, Port, Status};
use std::alloc::Global;
use survey::Survey;

// Writes the boundary triangles of tetrahedra, and finishes their file.
fn write_faces<D: Desk>(
    alloc: Global,
    desk: &mut D,
    tets: &[[u32; 4]],
    across: &[[Option<u32>; 4]],
    numbering: u32,
) -> Result<(), Status>
    requires is_open { (D.ports desk.old Face).is_open ≡ true }
    requires faults { (D.ports desk.old Face).faults ≡ 0 }
    requires differ { NodesDiffer tets.now }
    requires by_two { ShareByTwo tets.now }
    requires across { across.now ≡ neighbours_lem tets.now }
    requires few { length tets.now ≤ 33554432 }
    requires numbering { numbering ≤ 1 }
    ensures kind { IfErr result IsAtOutput }
    ensures puts { Puts result Face (D.ports desk.old Face) (D.ports desk.new Face) (face_text numbering (boundary tets.now)) }
    ensures apart { OnlyPort D.Desk Face desk.old desk.new }
{
    let put = put_faces(alloc, desk, Port::Face, tets, across, numbering);
    finished(desk, Port::Face, put)
}

// Writes the neighbours of tetrahedra, and finishes their file.
fn write_neighbours<D: Desk>(
    alloc: Global,
    desk: &mut D,
    across: &[[Option<u32>; 4]],
    numbering: u32,
) -> Result<(), Status>
    requires is_open { (D.ports desk.old Neigh).is_open ≡ true }
    requires faults { (D.ports desk.old Neigh).faults ≡ 0 }
    requires few { length across.now ≤ 33554432 }
    requires numbering { numbering ≤ 1 }
    ensures kind { IfErr result IsAtOutput }
    ensures puts { Puts result Neigh (D.ports desk.old Neigh) (D.ports desk.new Neigh) (neigh_text numbering across.now) }
    ensures apart { OnlyPort D.Desk Neigh desk.old desk.new }
{
    let put = put_neighbours(alloc, desk, Port::Neigh, across, numbering);
    finished(desk, Port::Neigh, put)
}

/// Writes the boundary triangles of a survey's mesh and the neighbours of its tetrahedra, and finishes their files, if
/// they are asked for. The list of tetrahedra is held while they are written.
pub fn write_adjacency<D: Desk>(
    alloc: Global,
    desk: &mut D,
    survey: &Survey,
    asked: bool,
    numbering: u32,
) -> Result<(), Status>
    requires limits { IsShares survey.now.subject.shares }
    requires face { asked ≡ true → (D.ports desk.old Face).is_open ≡ true }
    requires neigh { asked ≡ true → (D.ports desk.old Neigh).is_open ≡ true }
    requires faults { HasNoFault (D.ports desk.old) }
    requires few { asked ≡ true → length (mesh survey.now.subject.field survey.now.subject.shares).tets ≤ 33554432 }
    requires numbering { numbering ≤ 1 }
    ensures kind { IfErr result IsAtOutput }
    ensures continues { (name texts : Port → List ℕ)
        → texts Face ≡ face_text numbering (boundary (mesh survey.now.subject.field survey.now.subject.shares).tets)
        → texts Neigh ≡ neigh_text numbering (neighbours_lem (mesh survey.now.subject.field survey.now.subject.shares).tets)
        → Continues result D.ports (mesh_files asked) 2 (length (mesh_files asked)) name (IsThis texts) desk.old desk.new }
    ensures input { D.input desk.new ≡ D.input desk.old }
    ensures tried { D.tried desk.new ≡ D.tried desk.old }
    ensures others { (p : Port) → p ≢ Face → p ≢ Neigh → D.ports desk.new p ≡ D.ports desk.old p }
    ensures held { (n : List ℕ) → D.held desk.new n ≡ D.held desk.old n }
{
    if !asked {
        return Ok(());
    }
    let Ok(tets) = list_tets(alloc, survey) else {
        return Err(Status::NoMemory);
    };
    let Ok(across) = neighbours(alloc, &tets) else {
        return Err(Status::NoMemory);
    };
    match write_faces(alloc, desk, &tets, &across, numbering) {
        Ok(()) => {}
        Err(status) => return Err(status),
    }
    write_neighbours(alloc, desk, &across, numbering)
}
