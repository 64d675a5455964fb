ghost use Rattle.std.specs.Prelude.{◌≡◌, ◌-◌, ◌*◌, ◌<◌, ◌≤◌, IfOk, length, min};
ghost use Rattle.command_line.specs.Grammar.{IsPlan};
ghost use Rattle.definitions.specs.Layout.{slabs};
ghost use Rattle.formats.specs.Frames.{IsFrame};
ghost use Rattle.bcc_lattice.specs.Layouts.{IsLayout};
ghost use Rattle.slab_emit.specs.Parts.{AreParts};
ghost use Rattle.slab_work.specs.Rounds.{rounds_of};
ghost use Rattle.slab_work.specs.Surveyed.{AreKept, surveyed};

use crate::source_of;
use bcc_lattice::Layout;
use command_line::Plan;
use slab_emit::{Crew, Lines, Part, emit};
use st_base::{Frame, Gate, NoMemory};
use std::alloc::Global;
use std::thread::Threads;
use survey::Survey;

/// The number of rounds in which all slabs are made, each of four slabs for each worker of the plan, but for the last,
/// which may have fewer.
pub fn rounds(layout: &Layout, plan: Plan) -> u32
    requires layout { IsLayout layout.now.dims layout.now.slab }
    requires plan { IsPlan plan }
    ensures { result ≡ rounds_of layout.now.dims layout.now.slab plan.workers }
{
    layout.slabs().div_ceil(4 * plan.workers)
}

/// The lines of the nodes of the slabs from `first` on, four slabs for each worker of the plan or as many as there are,
/// in the order of slabs. They are numbered from `numbering`, which is 0 or 1.
pub fn emit_nodes<G: Gate + Sync, R: Threads + Sync>(
    rt: &R,
    alloc: Global,
    survey: &Survey,
    frame: Frame,
    numbering: u32,
    plan: Plan,
    gate: &G,
    first: u32,
) -> Result<Vec<Part>, NoMemory>
    requires first { first < slabs survey.now.subject.field.dims survey.now.layout.slab }
    requires plan { IsPlan plan }
    requires frame { IsFrame frame }
    requires numbering { numbering ≤ 1 }
    requires sizes { AreKept frame.step survey.now.subject.field.dims }
    ensures parts { IfOk result (λ ps. AreParts (Lines.Nodes frame numbering) (surveyed survey.now) first ps.items) }
    ensures len { IfOk result (λ ps. length ps.items ≡ min (4 * plan.workers) (slabs survey.now.subject.field.dims survey.now.layout.slab - first)) }
{
    let source = source_of(survey);
    let mut crew = Crew::new(alloc, plan.workers);
    emit(
        rt,
        alloc,
        &source,
        Lines::Nodes { frame, numbering },
        &mut crew,
        gate,
        first,
    )
}

/// The lines of the tetrahedra of these slabs, and the extremes of their angles.
pub fn emit_tets<G: Gate + Sync, R: Threads + Sync>(
    rt: &R,
    alloc: Global,
    survey: &Survey,
    _frame: Frame,
    numbering: u32,
    plan: Plan,
    gate: &G,
    first: u32,
) -> Result<Vec<Part>, NoMemory>
    requires first { first < slabs survey.now.subject.field.dims survey.now.layout.slab }
    requires plan { IsPlan plan }
    requires numbering { numbering ≤ 1 }
    ensures parts { IfOk result (λ ps. AreParts (Lines.Tets numbering) (surveyed survey.now) first ps.items) }
    ensures len { IfOk result (λ ps. length ps.items ≡ min (4 * plan.workers) (slabs survey.now.subject.field.dims survey.now.layout.slab - first)) }
{
    let source = source_of(survey);
    let mut crew = Crew::new(alloc, plan.workers);
    emit(
        rt,
        alloc,
        &source,
        Lines::Tets { numbering },
        &mut crew,
        gate,
        first,
    )
}
