ghost use Rattle.std.specs.Prelude.{◌≡◌, ◌≢◌, ◌<◌, ◌≤◌, true, Err, IfOk};
ghost use Rattle.definitions.specs.Layout.{slabs};
ghost use Rattle.slab_emit.specs.Sources.{CanPrint};
ghost use Rattle.mesh_rounds.specs.Puts.{PutsText};
ghost use Rattle.mesh_rounds.specs.Rounds.{IsReached, IsRound, text_of};

use mesh_rounds::{Reached, next_round, put_parts};
use node_ele_write::PutFault;
use slab_emit::{Crew, Lines, Part, Source};
use st_base::{Desk, Gate, NoMemory, Port};
use std::alloc::Global;
use std::thread::{Threads, join_mut};

/// Writes the parts of a round to an open port while the next round is made, and gives that: by a thread beside the
/// workers, where one can be made. A fault of the writing comes before want of memory.
pub fn write_beside<D: Desk + Send, G: Gate + Sync, R: Threads + Sync>(
    rt: &R,
    alloc: Global,
    desk: &mut D,
    port: Port,
    parts: &[Part],
    source: &Source,
    lines: Lines,
    crew: &mut Crew,
    gate: &G,
    reached: &mut Reached,
) -> Result<Vec<Part>, PutFault>
    requires is_open { (D.ports desk.old port).is_open ≡ true }
    requires first { reached.old.first < slabs source.now.field.dims source.now.slab }
    requires crew { 1 ≤ crew.old }
    requires printable { CanPrint lines source.now }
    requires reached { IsReached lines source.now reached.old }
    ensures puts { PutsText D.Desk port desk.old desk.new (text_of parts.now) result }
    ensures round { IfOk result (λ ps. IsRound lines source.now reached.old reached.new ps.items) }
    ensures crew { crew.new ≡ crew.old }
{
    let (wrote, made) = join_mut(
        rt,
        &mut || put_parts(desk, port, parts),
        &mut ||
            requires first { reached.now.first < slabs source.now.field.dims source.now.slab }
            requires crew { 1 ≤ crew.now }
            requires printable { CanPrint lines source.now }
            requires reached { IsReached lines source.now reached.now }
        { next_round(rt, alloc, source, lines, crew, gate, reached) },
    );
    match wrote {
        Ok(()) => match made {
            Ok(next) => Ok(next),
            Err(NoMemory) => Err(PutFault::NoMemory),
        },
        Err(fault) => Err(fault),
    }
}
