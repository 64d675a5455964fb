ghost use Rattle.std.specs.Prelude.{◌≡◌, ◌<◌, IfOk};
ghost use Rattle.definitions.specs.Layout.{slabs};
ghost use Rattle.slab_emit.specs.Parts.{IsPart};
ghost use Rattle.slab_emit.specs.Sources.{CanPrint};

use crate::{Lines, Source};
use dihedral::Extremes;
use slab_texts::Tools;
use st_base::NoMemory;
use std::alloc::Global;

/// The lines of a slab's nodes or tetrahedra, and the extremes of the angles of these, if there are any.
#[derive(Drop)]
pub struct Part {
    pub slab: u32,
    pub text: Vec<u8>,
    pub extremes: Option<Extremes>,
}

/// The part of slab `j`.
pub fn part_of(
    alloc: Global,
    tools: &mut Tools,
    source: &Source,
    lines: Lines,
    j: u32,
) -> Result<Part, NoMemory>
    requires slab { j < slabs source.now.field.dims source.now.slab }
    requires printable { CanPrint lines source.now }
    ensures { IfOk result (IsPart lines source.now j) }
{
    match lines {
        Lines::Nodes { frame, numbering } => match source.node_text(
            alloc, tools, j, &frame, numbering,
        ) {
            Ok(text) => Ok(Part {
                slab: j,
                text,
                extremes: None,
            }),
            Err(fault) => Err(fault),
        },
        Lines::Tets { numbering } => match source.tet_text(alloc, tools, j, numbering) {
            Ok(made) => Ok(Part {
                slab: j,
                text: made.text,
                extremes: made.extremes,
            }),
            Err(fault) => Err(fault),
        },
        Lines::Angles => match source.extremes(alloc, tools, j) {
            Ok(extremes) => Ok(Part {
                slab: j,
                text: Vec::new(alloc),
                extremes,
            }),
            Err(fault) => Err(fault),
        },
    }
}
