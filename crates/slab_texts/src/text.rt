ghost use Rattle.std.specs.Prelude.{◌≡◌, ◌+◌, ◌<◌, ◌≤◌, ◌^◌, ◌++◌, All, IfOk, OnOk, if◌then◌else◌, [], None, length, sum_by, take};
ghost use Rattle.std.specs.Option.{ForSome};
ghost use Rattle.definitions.specs.Angles.{extremes_of};
ghost use Rattle.definitions.specs.Lattice.{layers};
ghost use Rattle.definitions.specs.Mesh.{ArePadded};
ghost use Rattle.dihedral.specs.Fractions.{AreFractions};
ghost use Rattle.mesh_texts.specs.Lines.{node_lines};
ghost use Rattle.node_ele_write.specs.Printable.{IsPrintable};
ghost use Rattle.mesh_lists.specs.Parts.{mesh_of};
ghost use Rattle.vertex_numbers.specs.Counts.{layer_counts};
ghost use Rattle.slab_texts.specs.Spans.{span_angles, span_node_lines, span_places, span_tet_lines, span_tets};
ghost use Rattle.slab_texts.specs.Texts.{IsMeasured};

use crate::node_lines::{NodeLines, push_lines};
use crate::nodes::count;
use crate::tetrahedra::push_tets;
use crate::{Nodes, TetLines, Tools};
use bcc_lattice::{first_vertex, ids_below, layers};
use dihedral::{Extremes, Remembering};
use samples::Field;
use snap_rule::States;
use st_base::{Frame, NoMemory};
use std::alloc::Global;
use vertex_numbers::{Offsets, Starts};

/// So many bytes are taken beforehand for each line of a node, and of a tetrahedron; few lines are longer.
const NODE_ROOM: usize = 64;

const TET_ROOM: usize = 40;

/// The lines of the tetrahedra of some layers, and the extremes of their angles.
#[derive(Drop)]
pub struct TetText {
    pub text: Vec<u8>,
    pub extremes: Option<Extremes>,
}

// No lines yet, with room for those of the nodes of the layers from `from` on and before `to`, and the number of the
// first of them.
fn begin_nodes(
    alloc: Global,
    tools: &mut Tools,
    offsets: &Offsets,
    from: u32,
    to: u32,
    numbering: u32,
) -> Result<NodeLines, NoMemory>
    requires some { from ≤ to }
    requires within { to ≤ length offsets.now }
    requires room { numbering + sum_by (λ c. c.nodes) (take from offsets.now) < 2 ^ 32 }
    ensures text { IfOk result (λ out. out.text.items ≡ []) }
    ensures number { IfOk result (λ out. out.number ≡ numbering + sum_by (λ c. c.nodes) (take from offsets.now)) }
{
    let text = tools.text(alloc, NODE_ROOM * count(offsets, from, to) as usize)?;
    Ok(NodeLines {
        text,
        number: numbering + offsets.node_start(from),
    })
}

/// The lines of the nodes of the layers from `from` on and before `to`, which are numbered from `numbering`, 0 or 1.
///
/// ```rust
/// let mut tools = Tools::new(rt.alloc())?;
/// let frame = Frame { step: 1, world: None };
/// let text = node_text(rt.alloc(), &mut tools, &field, &states, &offsets, 0, 2, &frame, 0)?;
/// println!(rt; "{} bytes", text.len())?;
/// ```
pub fn node_text(
    alloc: Global,
    tools: &mut Tools,
    field: &Field,
    states: &States,
    offsets: &Offsets,
    from: u32,
    to: u32,
    frame: &Frame,
    numbering: u32,
) -> Result<Vec<u8>, NoMemory>
    requires sizes { states.now.dims ≡ field.now.dims }
    requires padded { ArePadded states.now.dims states.now.states }
    requires offsets { offsets.now ≡ layer_counts states.now.dims states.now.states }
    requires some { from < to }
    requires within { to ≤ layers states.now.dims }
    requires numbering { numbering ≤ 1 }
    requires printable { All (IsPrintable frame.now) (mesh_of field.now states.now.states).places }
    ensures { IfOk result (λ text. text.items ≡ span_node_lines frame.now numbering field.now states.now.states from to) }
{
    let dims = states.dims();
    let start = ids_below(dims, from);
    let end = ids_below(dims, to);
    let starts = Starts::of_layers(alloc, states, offsets, from, to)?;
    let v = first_vertex(from);
    let mut out = begin_nodes(alloc, tools, offsets, from, to, numbering)?;
    push_lines(
        field,
        states,
        &starts,
        v,
        start,
        end,
        frame,
        &mut tools.pen,
        &mut out,
    )?;
    Ok(out.text)
}

// So many bytes are taken beforehand for the lines of the tetrahedra of the layers from `from` on and before `to`.
fn room(offsets: &Offsets, from: u32, to: u32) -> usize
    requires some { from ≤ to }
    requires within { to ≤ length offsets.now }
    ensures { result < 2 ^ 62 }
{
    let tets = offsets
        .tet_start(to)
        .saturating_sub(offsets.tet_start(from));
    TET_ROOM * tets.min(1 << 32) as usize
}

// No lines yet, with room for those of the layers from `from` on and before `to` if lines are written.
fn begin(
    alloc: Global,
    tools: &mut Tools,
    offsets: &Offsets,
    from: u32,
    to: u32,
    writes: bool,
    numbering: u32,
) -> Result<TetLines, NoMemory>
    requires some { from ≤ to }
    requires within { to ≤ length offsets.now }
    requires numbering { numbering ≤ 1 }
    ensures text { IfOk result (λ out. out.text.items ≡ []) }
    ensures writes { IfOk result (λ out. out.writes ≡ writes) }
    ensures numbering { IfOk result (λ out. out.numbering ≡ numbering) }
    ensures number { IfOk result (λ out. out.number ≡ sum_by (λ c. c.tets) (take from offsets.now)) }
    ensures angles { IfOk result (λ out. out.angles ≡ None) }
{
    let text = if writes {
        tools.text(alloc, room(offsets, from, to))?
    } else {
        Vec::new(alloc)
    };
    Ok(TetLines {
        text,
        writes,
        numbering: numbering as u8,
        number: offsets.tet_start(from),
        angles: Remembering::new(),
    })
}

// The lines of the tetrahedra of the layers from `from` on and before `to`, if lines are written, and the extremes of
// their angles.
fn tets_of_layers(
    alloc: Global,
    tools: &mut Tools,
    field: &Field,
    states: &States,
    offsets: &Offsets,
    from: u32,
    to: u32,
    writes: bool,
    numbering: u32,
) -> Result<TetText, NoMemory>
    requires numbering { numbering ≤ 1 }
    requires sizes { states.now.dims ≡ field.now.dims }
    requires padded { ArePadded states.now.dims states.now.states }
    requires offsets { offsets.now ≡ layer_counts states.now.dims states.now.states }
    requires some { from < to }
    requires within { to ≤ layers states.now.dims }
    requires measured { All (IsMeasured (mesh_of field.now states.now.states).places) (span_tets states.now.dims states.now.states from to) }
    ensures text { IfOk result (λ t. t.text.items ≡ if writes then span_tet_lines numbering states.now.dims states.now.states from to else []) }
    ensures extremes { IfOk result (λ t. t.extremes ≡ extremes_of (span_angles field.now states.now.states from to)) }
    ensures fractions { IfOk result (λ t. ForSome t.extremes AreFractions) }
{
    let dims = states.dims();
    let top = (to + 2).min(layers(dims));
    let nodes = Nodes::of_layers(alloc, field, states, offsets, from, top)?;
    let mut out = begin(alloc, tools, offsets, from, to, writes, numbering)?;
    let v = first_vertex(from);
    let end = ids_below(dims, to);
    push_tets(states, &nodes, v, nodes.start, end, tools, &mut out)?;
    Ok(TetText {
        text: out.text,
        extremes: out.angles.found(),
    })
}

/// The lines of the tetrahedra of the layers from `from` on and before `to`, which are numbered from `numbering`, 0 or
/// 1, and the extremes of their angles.
pub fn tet_text(
    alloc: Global,
    tools: &mut Tools,
    field: &Field,
    states: &States,
    offsets: &Offsets,
    from: u32,
    to: u32,
    numbering: u32,
) -> Result<TetText, NoMemory>
    requires sizes { states.now.dims ≡ field.now.dims }
    requires padded { ArePadded states.now.dims states.now.states }
    requires offsets { offsets.now ≡ layer_counts states.now.dims states.now.states }
    requires some { from < to }
    requires within { to ≤ layers states.now.dims }
    requires numbering { numbering ≤ 1 }
    requires measured { All (IsMeasured (mesh_of field.now states.now.states).places) (span_tets states.now.dims states.now.states from to) }
    ensures text { IfOk result (λ t. t.text.items ≡ span_tet_lines numbering states.now.dims states.now.states from to) }
    ensures extremes { IfOk result (λ t. t.extremes ≡ extremes_of (span_angles field.now states.now.states from to)) }
    ensures fractions { IfOk result (λ t. ForSome t.extremes AreFractions) }
{
    tets_of_layers(
        alloc, tools, field, states, offsets, from, to, true, numbering,
    )
}

/// The extremes of the angles of these tetrahedra alone.
pub fn tet_extremes(
    alloc: Global,
    tools: &mut Tools,
    field: &Field,
    states: &States,
    offsets: &Offsets,
    from: u32,
    to: u32,
) -> Result<Option<Extremes>, NoMemory>
    requires sizes { states.now.dims ≡ field.now.dims }
    requires padded { ArePadded states.now.dims states.now.states }
    requires offsets { offsets.now ≡ layer_counts states.now.dims states.now.states }
    requires some { from < to }
    requires within { to ≤ layers states.now.dims }
    requires measured { All (IsMeasured (mesh_of field.now states.now.states).places) (span_tets states.now.dims states.now.states from to) }
    ensures extremes { IfOk result (λ e. e ≡ extremes_of (span_angles field.now states.now.states from to)) }
    ensures fractions { IfOk result (λ e. ForSome e AreFractions) }
{
    Ok(tets_of_layers(alloc, tools, field, states, offsets, from, to, false, 0)?.extremes)
}
