ghost use Rattle.std.specs.Prelude.{◌≡◌, ◌+◌, ◌-◌, ◌*◌, ◌≤◌, length};
ghost use Rattle.definitions.specs.Lattice.{layers};
ghost use Rattle.definitions.specs.Layout.{slabs};
ghost use Rattle.definitions.specs.States.{states as states_of};
ghost use Rattle.bcc_lattice.specs.Layouts.{IsLayout};
ghost use Rattle.list_words.specs.Words.{EachOnce};
ghost use Rattle.vertex_numbers.specs.Counts.{layer_counts};
ghost use Rattle.survey.specs.Surveys.{IsSurvey};

use bcc_lattice::Layout;
use layer_cells::Published;
use samples::Field;
use slab_claims::Drawn;
use snap_rule::{Shares, States};
use std::marker::Model;
use vertex_numbers::Offsets;

/// What shows that a survey was made: each slab was drawn once, and each layer made and published.
#[derive(Drop)]
pub struct Trace {
    shares: Shares,
    layout: Layout,
    published: Published,
    drawn: Drawn,
    made: u32,
}

impl Model for Trace {
    ghost use Rattle.std.specs.Prelude.{◌≡◌, length};
    ghost use Rattle.survey.specs.Surveys.{IsSurvey, SurveyValue};

    ghost Value = { SurveyValue };

    ghost view = { λ t. record { subject = t.published.subject; layout = t.layout; drawn = t.drawn.list; made = t.published.made } };

    ghost invariant = { λ t. (t.shares ≡ t.published.subject.shares) × (t.made ≡ length t.published.made) × IsSurvey (record { subject = t.published.subject; layout = t.layout; drawn = t.drawn.list; made = t.published.made }) };
}

impl Trace {
    pub(crate) fn new(
        shares: Shares,
        layout: Layout,
        published: Published,
        drawn: Drawn,
        made: u32,
    ) -> Trace
        requires shares { shares ≡ published.subject.shares }
        requires made { made ≡ length published.made }
        requires survey { IsSurvey (record { subject = published.subject; layout = layout; drawn = drawn.list; made = published.made }) }
        ensures { result ≡ record { subject = published.subject; layout = layout; drawn = drawn.list; made = published.made } }
    {
        Trace {
            shares,
            layout,
            published,
            drawn,
            made,
        }
    }

    /// The shares of edges within which cuts are near.
    pub fn shares(&self) -> Shares
        ensures { result ≡ self.now.subject.shares }
    {
        self.shares
    }

    /// The layers of the field's lattice in slabs.
    pub fn layout(&self) -> &Layout
        ensures value { result.now ≡ self.now.layout }
        ensures layout { IsLayout result.now.dims result.now.slab }
        ensures sizes { result.now.dims ≡ self.now.subject.field.dims }
    {
        &self.layout
    }

    /// The states of all vertices.
    pub fn states(&self) -> &States
        ensures dims { result.now.dims ≡ self.now.subject.field.dims }
        ensures states { result.now.states ≡ states_of self.now.subject.field self.now.subject.shares }
    {
        self.published.states()
    }

    /// How many layers were made, one that was made twice counted twice.
    pub fn made(&self) -> u32
        ensures made { result ≡ length self.now.made }
        ensures few { result ≤ layers self.now.layout.dims + 4 * (slabs self.now.layout.dims self.now.layout.slab - 1) }
    {
        self.made
    }

    /// What each trace shows: each slab was drawn once.
    pub fn each_once(&self)
        ensures { EachOnce (slabs self.now.layout.dims self.now.layout.slab) self.now.drawn }
    {
        let _ = &self.drawn;
    }
}

/// The states of all vertices of a field, how many nodes and tetrahedra each layer has, and the trace of how
/// they were made. Threads share it by reference.
///
/// The counts are those of the states that the trace tells of, and the field is the one that it is of.
#[derive(Drop)]
pub struct Survey<'f> {
    field: &'f Field,
    offsets: Offsets,
    trace: Trace,
}

impl<'f> Model for Survey<'f> {
    ghost use Rattle.std.specs.Prelude.{◌≡◌};
    ghost use Rattle.definitions.specs.States.{states};
    ghost use Rattle.vertex_numbers.specs.Counts.{layer_counts};
    ghost use Rattle.survey.specs.Surveys.{SurveyValue};

    ghost Value = { SurveyValue };

    ghost view = { λ s. s.trace };

    ghost invariant = { λ s. (s.field.now ≡ s.trace.subject.field) × (s.offsets ≡ layer_counts s.trace.subject.field.dims (states s.trace.subject.field s.trace.subject.shares)) };
}

impl<'f> Survey<'f> {
    pub(crate) fn new(field: &'f Field, offsets: Offsets, trace: Trace) -> Survey<'f>
        requires field { field.now ≡ trace.subject.field }
        requires offsets { offsets ≡ layer_counts trace.subject.field.dims (states_of trace.subject.field trace.subject.shares) }
        ensures { result ≡ trace }
    {
        Survey {
            field,
            offsets,
            trace,
        }
    }

    /// The field that was surveyed.
    pub fn field(&self) -> &'f Field
        ensures { result.now ≡ self.now.subject.field }
    {
        self.field
    }

    /// The shares of edges within which cuts are near.
    pub fn shares(&self) -> Shares
        ensures { result ≡ self.now.subject.shares }
    {
        self.trace.shares()
    }

    /// The layers of the field's lattice in slabs.
    pub fn layout(&self) -> &Layout
        ensures value { result.now ≡ self.now.layout }
        ensures layout { IsLayout result.now.dims result.now.slab }
        ensures sizes { result.now.dims ≡ self.now.subject.field.dims }
    {
        self.trace.layout()
    }

    /// The states of all vertices.
    pub fn states(&self) -> &States
        ensures dims { result.now.dims ≡ self.now.subject.field.dims }
        ensures states { result.now.states ≡ states_of self.now.subject.field self.now.subject.shares }
    {
        self.trace.states()
    }

    /// The numbers of nodes and tetrahedra of all layers.
    pub fn offsets(&self) -> &Offsets
        ensures { result.now ≡ layer_counts self.now.subject.field.dims (states_of self.now.subject.field self.now.subject.shares) }
    {
        &self.offsets
    }

    /// How many layers the workers made, one that was made twice counted twice.
    pub fn made(&self) -> u32
        ensures made { result ≡ length self.now.made }
        ensures few { result ≤ layers self.now.layout.dims + 4 * (slabs self.now.layout.dims self.now.layout.slab - 1) }
    {
        self.trace.made()
    }

    /// The trace alone.
    pub fn into_trace(self) -> Trace
        ensures trace { result ≡ self.entry }
        ensures survey { IsSurvey result }
    {
        self.trace
    }
}
