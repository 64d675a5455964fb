ghost use Rattle.std.specs.Prelude.{◌≡◌, ◌≢◌, ◌≤◌, ◌<◌, ℕ, List, true, Some, Ok, Err, IfOk, IfErr, IsErrOf};
ghost use Rattle.formats.specs.Frames.{AreAxes};
ghost use Rattle.formats.specs.Faults.{status_of};
ghost use Rattle.st_base.specs.Causes.{Rose};
ghost use Rattle.st_base.specs.Frames.{OnlyInput};
ghost use Rattle.slab_work.specs.Surveyed.{AreKept};
ghost use Rattle.stuff.specs.Inputs.{outcome_of};
ghost use Rattle.stuff.specs.Ends.{IsRefusal, ReadsInput, ReadsField};
ghost use Rattle.stuff.specs.Refusals.{status_of_volume};

use mha_read::{VolFault, read_head, read_volume};
use samples::{Field, Level};
use st_base::{Axis, Desk, HeadFault, Limits, NoMemory, Status, Volume};
use std::alloc::Global;

/// What is read of an input: the field of its volume, and how its samples stand on the three axes.
#[derive(Drop)]
pub struct Scan {
    pub field: Field,
    pub axes: [Axis; 3],
}

fn header_status(fault: HeadFault) -> Status
    ensures { result ≡ status_of fault }
{
    match fault {
        HeadFault::ReadFault => Status::ReadFault,
        HeadFault::NoMemory => Status::NoMemory,
        HeadFault::Unsupported { key } => Status::Unsupported { key },
        _ => Status::BadHeader { fault },
    }
}

fn volume_status(fault: VolFault) -> Status
    ensures { result ≡ status_of_volume fault }
{
    match fault {
        VolFault::TooLarge { padded } => Status::TooLarge { padded },
        VolFault::Truncated { got, wanted } => Status::Truncated { got, wanted },
        VolFault::ReadFault => Status::ReadFault,
        VolFault::NoMemory => Status::NoMemory,
    }
}

/// The volume of the open input and its axes, or the status of why the input is refused.
pub fn read_input<D: Desk>(
    alloc: Global,
    desk: &mut D,
    world: bool,
    step: u32,
) -> Result<(Volume, [Axis; 3]), Status>
    requires step { 1 ≤ step }
    requires step_bound { step ≤ 64 }
    requires is_open { (D.input desk.old).is_open ≡ true }
    ensures told { (text : List ℕ) → (D.input desk.old).left ≡ Some text → ReadsInput result (outcome_of world step text) text (D.input desk.new).left }
    ensures sizes { IfOk result (λ r. AreKept step r.0.dims) }
    ensures axes { IfOk result (λ r. AreAxes r.1) }
    ensures refusal { IfErr result IsRefusal }
    ensures fault { IsErrOf result Status.ReadFault → Rose (D.input desk.old).faults (D.input desk.new).faults }
    ensures none { result ≢ Err Status.ReadFault → (D.input desk.new).faults ≡ (D.input desk.old).faults }
    ensures is_open { (D.input desk.new).is_open ≡ true }
    ensures apart { OnlyInput D.Desk desk.old desk.new }
{
    let head = match read_head(alloc, desk, world) {
        Ok(head) => head,
        Err(fault) => return Err(header_status(fault)),
    };
    match read_volume(alloc, desk, &head, step, &Limits::second()) {
        Ok(volume) => Ok((volume, head.axes)),
        Err(fault) => Err(volume_status(fault)),
    }
}

/// The field of the open input and its axes, or the status of why the input is refused. The axes are those of its head
/// where `world` is set.
pub fn read_field<D: Desk>(
    alloc: Global,
    desk: &mut D,
    level: Level,
    below: bool,
    step: u32,
    world: bool,
) -> Result<Scan, Status>
    requires step { 1 ≤ step }
    requires step_bound { step ≤ 64 }
    requires is_open { (D.input desk.old).is_open ≡ true }
    ensures told { (text : List ℕ) → (D.input desk.old).left ≡ Some text → ReadsField result (record { twice = level; below = below; step = step; world = world }) text (D.input desk.new).left }
    ensures sizes { IfOk result (λ scan. AreKept step scan.field.dims) }
    ensures axes { IfOk result (λ scan. AreAxes scan.axes) }
    ensures refusal { IfErr result IsRefusal }
    ensures fault { IsErrOf result Status.ReadFault → Rose (D.input desk.old).faults (D.input desk.new).faults }
    ensures none { result ≢ Err Status.ReadFault → (D.input desk.new).faults ≡ (D.input desk.old).faults }
    ensures is_open { (D.input desk.new).is_open ≡ true }
    ensures apart { OnlyInput D.Desk desk.old desk.new }
{
    let (volume, axes) = read_input(alloc, desk, world, step)?;
    match Field::of_volume(alloc, volume, level, below) {
        Ok(field) => Ok(Scan { field, axes }),
        Err(NoMemory) => Err(Status::NoMemory),
    }
}
