ghost use Rattle.std.specs.Prelude.{◌≡◌, ◌≤◌, ℕ, length, take, if◌then◌else◌, IfOk, OnErr};
ghost use Rattle.definitions.specs.Lattice.{vertices};
ghost use Rattle.bcc_lattice.specs.Layouts.{IsLayout};

use crate::Event;
use crate::state::State;
use bcc_lattice::Layout;
use st_base::NoMemory;
use std::alloc::Global;
use std::marker::Model;

/// The concurrent core: a state that events led to, each allowed where it happened.
///
/// Each slab that is drawn was drawn once, each word is 0 or the one that is wanted, and each layer whose flag is up
/// has all of its words.
#[derive(Drop)]
pub struct Core {
    state: State,
}

impl Model for Core {
    ghost use Rattle.slab_core.specs.States.{CoreState};
    ghost use Rattle.slab_core.specs.Sound.{IsSound};

    ghost Value = { CoreState };

    ghost view = { λ c. c.state };

    ghost invariant = { λ c. IsSound c.state };
}

impl Core {
    ghost use Rattle.slab_core.specs.States.{new_core};
    ghost use Rattle.slab_core.specs.Steps.{allowed, after, after_all, count_allowed};
    ghost use Rattle.slab_core.specs.Sound.{IsSound};
    ghost use Rattle.slab_core.specs.Results.{LooksAgree, FewMade, AllGone, IsDone};

    /// The core of 1 to 64 workers before any event: no slab is drawn, all words are 0 and all flags
    /// are down. `wanted` has one code per vertex, by id.
    ///
    /// ```
    /// let mut core = Core::new(alloc, &layout, wanted, 1)?;
    /// let happened = core.run(&[Event::Claim { w: 0 }, Event::Read { w: 0, id: 0 }])?;
    /// assert_eq!(happened, 1); // layer 0 was not seen
    /// ```
    pub fn new(
        alloc: Global,
        layout: &Layout,
        wanted: &[u64],
        workers: u32,
    ) -> Result<Core, NoMemory>
        requires layout { IsLayout layout.now.dims layout.now.slab }
        requires wanted { length wanted.now ≡ length (vertices layout.now.dims) }
        requires some { 1 ≤ workers }
        requires few { workers ≤ 64 }
        ensures start { IfOk result (λ c. c ≡ new_core layout.now.dims layout.now.slab wanted.now workers) }
        ensures sound { IfOk result IsSound }
    {
        let state = State::new(alloc, layout, wanted, workers)?;
        Ok(Core { state })
    }

    /// Lets an event happen where it is allowed, and says whether it is. The core is unchanged where it
    /// isn't, and where memory is wanting.
    pub fn step(&mut self, event: Event) -> Result<bool, NoMemory>
        ensures allowed { IfOk result (λ b. b ≡ allowed event self.old) }
        ensures after { IfOk result (λ b. self.new ≡ (if b then after event self.old else self.old)) }
        ensures unchanged { OnErr result (self.new ≡ self.old) }
        ensures sound { IsSound self.new }
    {
        if !self.state.allows(event) {
            return Ok(false);
        }
        self.state.apply(event)?;
        Ok(true)
    }

    /// What holds of every core, whichever events led to it. It does nothing.
    pub fn holds(&self)
        ensures sound { IsSound self.now }
        ensures looks { LooksAgree self.now }
        ensures few_made { FewMade self.now }
        ensures done { AllGone self.now → IsDone self.now }
    {
        let _state = &self.state;
    }

    /// Lets events happen from the first on, up to the first that isn't allowed, and counts them. Where
    /// memory is wanting, some of the first have happened.
    pub fn run(&mut self, events: &[Event]) -> Result<usize, NoMemory>
        ensures counted { IfOk result (λ n. n ≡ count_allowed events.now self.old) }
        ensures after { IfOk result (λ n. self.new ≡ after_all (take n events.now) self.old) }
        ensures some_of_them { OnErr result ((n : ℕ) × (n ≤ count_allowed events.now self.old) × (self.new ≡ after_all (take n events.now) self.old)) }
        ensures sound { IsSound self.new }
        ensures looks { LooksAgree self.new }
        ensures few_made { FewMade self.new }
        ensures done { AllGone self.new → IsDone self.new }
    {
        self.holds();
        for (i, event) in events.iter().enumerate() {
            if !self.step(*event)? {
                return Ok(i);
            }
        }
        Ok(events.len())
    }
}
