ghost use Rattle.std.specs.Prelude.{◌≡◌, ◌<◌, ◌≤◌, ◌^◌, All, IfOk, length};
ghost use Rattle.std.specs.Option.{ForSome};
ghost use Rattle.bcc_lattice.specs.Layouts.{IsLayout};
ghost use Rattle.definitions.specs.Angles.{extremes_of};
ghost use Rattle.definitions.specs.Layout.{slab_from, slab_to, slabs};
ghost use Rattle.dihedral.specs.Fractions.{AreFractions};
ghost use Rattle.node_ele_write.specs.Printable.{IsPrintable};
ghost use Rattle.mesh_lists.specs.Parts.{mesh_of};
ghost use Rattle.slab_texts.specs.Spans.{span_node_lines, span_tet_lines};
ghost use Rattle.slab_emit.specs.Sources.{AreMeasured, FitSource, slab_angles};

use bcc_lattice::Layout;
use dihedral::Extremes;
use samples::Field;
use slab_texts::{TetText, Tools, node_text, tet_extremes, tet_text};
use snap_rule::States;
use st_base::{Frame, NoMemory};
use std::alloc::Global;
use std::marker::Model;
use vertex_numbers::Offsets;

/// That from which lines are made: a field, the states of all vertices, and how many nodes and tetrahedra stand below
/// each layer; and the size of slabs. All angles of its mesh can be measured. Workers share it by reference.
#[derive(Drop)]
pub struct Source<'a> {
    field: &'a Field,
    states: &'a States,
    offsets: &'a Offsets,
    slab: u32,
}

impl<'a> Model for Source<'a> {
    ghost use Rattle.slab_emit.specs.Sources.{FitSource, SourceValue};

    ghost Value = { SourceValue };

    ghost view = { λ s. record { field = s.field.now; states = s.states.now.states; slab = s.slab } };

    ghost invariant = { λ s. FitSource (record { field = s.field.now; states = s.states.now.states; slab = s.slab }) s.states.now.dims s.offsets.now };
}

impl<'a> Source<'a> {
    /// The source of these values.
    pub fn new(field: &'a Field, states: &'a States, offsets: &'a Offsets, slab: u32) -> Source<'a>
        requires { FitSource (record { field = field.now; states = states.now.states; slab = slab }) states.now.dims offsets.now }
        ensures { result ≡ record { field = field.now; states = states.now.states; slab = slab } }
    {
        Source {
            field,
            states,
            offsets,
            slab,
        }
    }

    fn layout(&self) -> Layout
        ensures dims { result.dims ≡ self.now.field.dims }
        ensures slab { result.slab ≡ self.now.slab }
        ensures layout { IsLayout result.dims result.slab }
        ensures measured { AreMeasured self.now }
    {
        Layout {
            dims: self.field.dims(),
            slab: self.slab,
        }
    }

    /// The number of slabs.
    pub fn slabs(&self) -> u32
        ensures slabs { result ≡ slabs self.now.field.dims self.now.slab }
        ensures small { result ≤ 2 ^ 23 }
        ensures size { 0 < self.now.slab }
        ensures measured { AreMeasured self.now }
    {
        self.layout().slabs()
    }

    /// The number of nodes of the mesh.
    pub fn nodes(&self) -> u32
        ensures { result ≡ length (mesh_of self.now.field self.now.states).places }
    {
        self.offsets.nodes()
    }

    /// The number of tetrahedra of the mesh.
    pub fn tets(&self) -> u64
        ensures { result ≡ length (mesh_of self.now.field self.now.states).tets }
    {
        self.offsets.tets()
    }

    /// The lines of the nodes of slab `j`.
    pub fn node_text(
        &self,
        alloc: Global,
        tools: &mut Tools,
        j: u32,
        frame: &Frame,
        numbering: u32,
    ) -> Result<Vec<u8>, NoMemory>
        requires slab { j < slabs self.now.field.dims self.now.slab }
        requires numbering { numbering ≤ 1 }
        requires printable { All (IsPrintable frame.now) (mesh_of self.now.field self.now.states).places }
        ensures { IfOk result (λ text. text.items
            ≡ span_node_lines frame.now numbering self.now.field self.now.states (slab_from self.now.slab j) (slab_to self.now.field.dims self.now.slab j)) }
    {
        let (from, to) = self.layout().layers_of(j);
        node_text(
            alloc,
            tools,
            self.field,
            self.states,
            self.offsets,
            from,
            to,
            frame,
            numbering,
        )
    }

    /// The lines of the tetrahedra of slab `j`, and the extremes of their angles.
    pub fn tet_text(
        &self,
        alloc: Global,
        tools: &mut Tools,
        j: u32,
        numbering: u32,
    ) -> Result<TetText, NoMemory>
        requires slab { j < slabs self.now.field.dims self.now.slab }
        requires numbering { numbering ≤ 1 }
        ensures text { IfOk result (λ t. t.text.items
            ≡ span_tet_lines numbering self.now.field.dims self.now.states (slab_from self.now.slab j) (slab_to self.now.field.dims self.now.slab j)) }
        ensures extremes { IfOk result (λ t. t.extremes ≡ extremes_of (slab_angles self.now j)) }
        ensures fractions { IfOk result (λ t. ForSome t.extremes AreFractions) }
    {
        let (from, to) = self.layout().layers_of(j);
        tet_text(
            alloc,
            tools,
            self.field,
            self.states,
            self.offsets,
            from,
            to,
            numbering,
        )
    }

    /// The extremes of the angles of the tetrahedra of slab `j`.
    pub fn extremes(
        &self,
        alloc: Global,
        tools: &mut Tools,
        j: u32,
    ) -> Result<Option<Extremes>, NoMemory>
        requires slab { j < slabs self.now.field.dims self.now.slab }
        ensures extremes { IfOk result (λ e. e ≡ extremes_of (slab_angles self.now j)) }
        ensures fractions { IfOk result (λ e. ForSome e AreFractions) }
    {
        let (from, to) = self.layout().layers_of(j);
        tet_extremes(
            alloc,
            tools,
            self.field,
            self.states,
            self.offsets,
            from,
            to,
        )
    }
}
