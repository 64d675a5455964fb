ghost use Rattle.std.specs.Prelude.{◌≡◌, ◌≤◌, ℤ, Some, None, IfSome, IfNone, IfOk, IfErr, length, drop, option_map, is_some, unwrap_or};
ghost use Rattle.std.specs.Option.{option_or};
ghost use Rattle.command_line.specs.declared.Name.{Name as NameValue};
ghost use Rattle.command_line.specs.Grammar.{Setting as Meaning, ReadsSetting, IsValue, Number, Point};
ghost use Rattle.definitions.specs.declared.Place.{Place as PlaceValue};
ghost use Rattle.command_words.specs.Settings.{setting_of, held, said, IsTakenAs, IsStuck, IsTaken, IsStop};

use crate::ends::after_start;
use crate::names::{NAMES, name_text};
use crate::numbers::{any_number, level, number_within};
use crate::points::point;
use crate::units::is_world;
use crate::verbs::is_known;
use command_line::{Name, Plan, Verb};
use samples::Level;
use snap_rule::Shares;
use st_base::{Place, Words};

/// A named word, read.
#[derive(Clone, Copy)]
pub enum Setting {
    Level(Level),
    Below,
    Step(u32),
    Long(u32),
    Short(u32),
    Workers(u32),
    Slab(u32),
    First(u32),
    World(bool),
    Faces,
    At(Place),
    Size(u32),
    Seed(u64),
}

/// What the named words have set so far.
#[derive(Clone, Copy)]
pub struct Seen {
    pub level: Option<Level>,
    pub below: bool,
    pub step: Option<u32>,
    pub long: Option<u32>,
    pub short: Option<u32>,
    pub workers: Option<u32>,
    pub slab: Option<u32>,
    pub first: Option<u32>,
    pub world: Option<bool>,
    pub faces: bool,
    pub at: Option<Place>,
    pub size: Option<u32>,
    pub seed: Option<u64>,
}

// What the text behind a name sets it to.
fn read_value(name: Name, text: &[u8]) -> Option<Setting>
    ensures name { IfSome result (λ s. (setting_of s).name ≡ name) }
    ensures text { IfSome result (λ s. IsValue name text.now (setting_of s).value) }
    ensures number { (value : ℤ) → IsValue name text.now (Number value) → option_map setting_of result ≡ Some (record { name = name; value = Number value }) }
    ensures point { (p : PlaceValue) → IsValue name text.now (Point p) → option_map setting_of result ≡ Some (record { name = name; value = Point p }) }
{
    match name {
        Name::Level => Some(Setting::Level(level(text)?)),
        Name::Below if text == b"yes".as_slice() => Some(Setting::Below),
        Name::Below => None,
        Name::Step => Some(Setting::Step(number_within(text, 1, 64)?)),
        Name::Long => Some(Setting::Long(number_within(text, 0, 1023)?)),
        Name::Short => Some(Setting::Short(number_within(text, 0, 2047)?)),
        Name::Workers => Some(Setting::Workers(number_within(text, 1, 64)?)),
        Name::Slab => Some(Setting::Slab(number_within(text, 1, 64)?)),
        Name::First => Some(Setting::First(number_within(text, 0, 1)?)),
        Name::Units => Some(Setting::World(is_world(text)?)),
        Name::Faces if text == b"yes".as_slice() => Some(Setting::Faces),
        Name::Faces => None,
        Name::At => Some(Setting::At(point(text)?)),
        Name::Size => Some(Setting::Size(number_within(text, 1, 128)?)),
        Name::Seed => Some(Setting::Seed(any_number(text)?)),
    }
}

// What a named word sets.
fn read_setting(word: &[u8]) -> Option<Setting>
    ensures reads { IfSome result (λ s. ReadsSetting word.now (setting_of s)) }
    ensures found { (s : Meaning) → ReadsSetting word.now s → option_map setting_of result ≡ Some s }
{
    for name in &NAMES {
        if let Some(text) = after_start(word, name_text(*name)) {
            return read_value(*name, text);
        }
    }
    None
}

impl Setting {
    // The name that it sets.
    fn name(&self) -> Name
        ensures { result ≡ (setting_of self.now).name }
    {
        match self {
            Setting::Level(_) => Name::Level,
            Setting::Below => Name::Below,
            Setting::Step(_) => Name::Step,
            Setting::Long(_) => Name::Long,
            Setting::Short(_) => Name::Short,
            Setting::Workers(_) => Name::Workers,
            Setting::Slab(_) => Name::Slab,
            Setting::First(_) => Name::First,
            Setting::World(_) => Name::Units,
            Setting::Faces => Name::Faces,
            Setting::At(_) => Name::At,
            Setting::Size(_) => Name::Size,
            Setting::Seed(_) => Name::Seed,
        }
    }
}

impl Seen {
    // Nothing seen.
    fn new() -> Seen
        ensures { (n : NameValue) → held result n ≡ None }
    {
        Seen {
            level: None,
            below: false,
            step: None,
            long: None,
            short: None,
            workers: None,
            slab: None,
            first: None,
            world: None,
            faces: false,
            at: None,
            size: None,
            seed: None,
        }
    }

    // Whether a name is set.
    fn is_set(&self, name: Name) -> bool
        ensures { result ≡ is_some (held self.now name) }
    {
        match name {
            Name::Level => self.level.is_some(),
            Name::Below => self.below,
            Name::Step => self.step.is_some(),
            Name::Long => self.long.is_some(),
            Name::Short => self.short.is_some(),
            Name::Workers => self.workers.is_some(),
            Name::Slab => self.slab.is_some(),
            Name::First => self.first.is_some(),
            Name::Units => self.world.is_some(),
            Name::Faces => self.faces,
            Name::At => self.at.is_some(),
            Name::Size => self.size.is_some(),
            Name::Seed => self.seed.is_some(),
        }
    }

    // The same with one setting more.
    fn with(&self, setting: Setting) -> Seen
        ensures { (n : NameValue) → held result n ≡ option_or (said (setting_of setting) n) (held self.now n) }
    {
        let mut seen = *self;
        match setting {
            Setting::Level(level) => seen.level = Some(level),
            Setting::Below => seen.below = true,
            Setting::Step(step) => seen.step = Some(step),
            Setting::Long(share) => seen.long = Some(share),
            Setting::Short(share) => seen.short = Some(share),
            Setting::Workers(count) => seen.workers = Some(count),
            Setting::Slab(size) => seen.slab = Some(size),
            Setting::First(first) => seen.first = Some(first),
            Setting::World(world) => seen.world = Some(world),
            Setting::Faces => seen.faces = true,
            Setting::At(at) => seen.at = Some(at),
            Setting::Size(size) => seen.size = Some(size),
            Setting::Seed(seed) => seen.seed = Some(seed),
        }
        seen
    }

    // One more word. None: the command does not go on with it.
    fn take(&self, verb: Verb, word: &[u8]) -> Option<Seen>
        ensures taken { IfSome result (λ next. IsTakenAs verb self.now word.now next) }
        ensures stuck { IfNone result (IsStuck verb self.now word.now) }
    {
        let setting = read_setting(word)?;
        let name = setting.name();
        if !is_known(verb, name) || self.is_set(name) {
            return None;
        }
        Some(self.with(setting))
    }

    /// The shares, 1023 and 1687 where none are set.
    pub fn shares(&self) -> Shares
        requires long { unwrap_or self.now.long 1023 ≤ 1023 }
        requires short { unwrap_or self.now.short 1687 ≤ 2047 }
        ensures { result ≡ record { long = unwrap_or self.now.long 1023; short = unwrap_or self.now.short 1687 } }
    {
        let long = self.long.unwrap_or(1023);
        let short = self.short.unwrap_or(1687);
        match Shares::new(long as u16, short as u16) {
            Some(shares) => shares,
            None => unreachable!(),
        }
    }

    /// The plan, of 4 and 4 where nothing is set.
    pub fn plan(&self) -> Plan
        ensures { result ≡ record { workers = unwrap_or self.now.workers 4; slab = unwrap_or self.now.slab 4 } }
    {
        Plan {
            workers: self.workers.unwrap_or(4),
            slab: self.slab.unwrap_or(4),
        }
    }
}

/// What the words from word `start` on set, or the place of the first that the command does not go
/// on with.
pub fn read_settings(verb: Verb, words: &Words, start: usize) -> Result<Seen, u64>
    requires { start ≤ length words.now }
    ensures all { IfOk result (λ seen. IsTaken verb (drop start words.now) seen) }
    ensures place { IfErr result (λ place. IsStop verb words.now start place) }
{
    let mut seen = Seen::new();
    for i in start..words.len() {
        match seen.take(verb, words.word(i)) {
            Some(next) => seen = next,
            None => return Err(i as u64),
        }
    }
    Ok(seen)
}
