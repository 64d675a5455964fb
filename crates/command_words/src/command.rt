ghost use Rattle.std.specs.Prelude.{◌≡◌, ◌<◌, ◌^◌, unsigned_abs};
ghost use Rattle.command_words.specs.Commands.{source_of, level_of, below_of, step_of, world_of, mesh_of, probe_of, plan_with};

use command_line::Plan;
use samples::Level;
use snap_rule::Shares;
use st_base::Place;

/// What the words ask for. A file is named by the number of its word.
#[derive(Clone, Copy)]
pub enum Command {
    /// Count the signs of the vertices of a volume at a level, before any is moved.
    Count {
        input: usize,
        level: Level,
        below: bool,
        step: u32,
    },
    /// Make the mesh of a volume at a level.
    Mesh {
        input: usize,
        output: usize,
        level: Level,
        below: bool,
        step: u32,
        shares: Shares,
        plan: Plan,
        numbering: u32,
        world: bool,
        faces: bool,
    },
    /// Count the signs of a volume that is made from a number, and tell of its mesh; at level 199.5.
    Demo {
        size: u32,
        seed: u64,
        plan: Plan,
    },
    /// Judge the finished files of a mesh, whose names begin with the word.
    Audit {
        input: usize,
    },
    /// Tell which tetrahedron of the mesh of a volume holds a point.
    Probe {
        input: usize,
        level: Level,
        below: bool,
        step: u32,
        shares: Shares,
        at: Place,
    },
    /// Make the mesh of a volume at a level, and write one round while the next is made.
    Stream {
        input: usize,
        output: usize,
        level: Level,
        below: bool,
        step: u32,
        shares: Shares,
        plan: Plan,
        numbering: u32,
        world: bool,
    },
}

/// What a command is carried out on.
#[derive(Clone, Copy)]
pub enum Source {
    /// A volume in a file, which is named by the number of its word.
    File { input: usize },
    /// A volume that is made from a size and a seed.
    Phantom { size: u32, seed: u64 },
    /// The finished files of a mesh, whose names begin with the word of this number.
    Finished { input: usize },
}

/// What `mesh` and `stream` alone have: the number of the word that names the output, the shares within which a
/// cut is near, how the work is shared out, the number from which nodes and tetrahedra are numbered, 0 or 1, whether
/// coordinates are in the volume's own units, whether faces and neighbours are written too, and whether one round is
/// written while the next is made.
#[derive(Clone, Copy)]
pub struct MeshSettings {
    pub output: usize,
    pub shares: Shares,
    pub plan: Plan,
    pub numbering: u32,
    pub world: bool,
    pub faces: bool,
    pub streamed: bool,
}

/// What `probe` alone has: the shares within which a cut is near, and the point, in units of 1/8192 of a kept
/// voxel step.
#[derive(Clone, Copy)]
pub struct ProbeSettings {
    pub shares: Shares,
    pub at: Place,
}

// The level of which this is the double.
fn level_at(twice: i64) -> Level
    requires { unsigned_abs twice < 2 ^ 33 }
    ensures { result ≡ twice }
{
    match Level::new(twice) {
        Some(level) => level,
        None => unreachable!(),
    }
}

impl Command {
    /// What it is carried out on.
    pub fn source(&self) -> Source
        ensures { result ≡ source_of self.now }
    {
        match self {
            Command::Count { input, .. }
            | Command::Mesh { input, .. }
            | Command::Probe { input, .. }
            | Command::Stream { input, .. } => Source::File { input: *input },
            Command::Audit { input } => Source::Finished { input: *input },
            Command::Demo { size, seed, .. } => Source::Phantom {
                size: *size,
                seed: *seed,
            },
        }
    }

    /// The level, and 0 where no volume has one.
    pub fn level(&self) -> Level
        ensures { result ≡ level_of self.now }
    {
        match self {
            Command::Count { level, .. }
            | Command::Mesh { level, .. }
            | Command::Probe { level, .. }
            | Command::Stream { level, .. } => *level,
            Command::Audit { .. } => level_at(0),
            Command::Demo { .. } => level_at(399),
        }
    }

    /// Whether the region lies below the level.
    pub fn below(&self) -> bool
        ensures { result ≡ below_of self.now }
    {
        match self {
            Command::Count { below, .. }
            | Command::Mesh { below, .. }
            | Command::Probe { below, .. }
            | Command::Stream { below, .. } => *below,
            Command::Audit { .. } | Command::Demo { .. } => false,
        }
    }

    /// The step along each axis, in samples.
    pub fn step(&self) -> u32
        ensures { result ≡ step_of self.now }
    {
        match self {
            Command::Count { step, .. }
            | Command::Mesh { step, .. }
            | Command::Probe { step, .. }
            | Command::Stream { step, .. } => *step,
            Command::Audit { .. } | Command::Demo { .. } => 1,
        }
    }

    /// Whether its coordinates are in the volume's own units.
    pub fn world(&self) -> bool
        ensures { result ≡ world_of self.now }
    {
        match self {
            Command::Mesh { world, .. } | Command::Stream { world, .. } => *world,
            _ => false,
        }
    }

    /// How its work is shared out, the usual way where nothing is said of it.
    pub fn plan(&self) -> Plan
        ensures { result ≡ plan_with self.now }
    {
        match self {
            Command::Mesh { plan, .. }
            | Command::Demo { plan, .. }
            | Command::Stream { plan, .. } => *plan,
            _ => Plan {
                workers: 4,
                slab: 4,
            },
        }
    }

    /// What `mesh` and `stream` alone have. None: the command is another one.
    pub fn mesh(&self) -> Option<MeshSettings>
        ensures { result ≡ mesh_of self.now }
    {
        match *self {
            Command::Mesh {
                output,
                shares,
                plan,
                numbering,
                world,
                faces,
                ..
            } => Some(MeshSettings {
                output,
                shares,
                plan,
                numbering,
                world,
                faces,
                streamed: false,
            }),
            Command::Stream {
                output,
                shares,
                plan,
                numbering,
                world,
                ..
            } => Some(MeshSettings {
                output,
                shares,
                plan,
                numbering,
                world,
                faces: false,
                streamed: true,
            }),
            _ => None,
        }
    }

    /// What `probe` alone has. None: the command is another one.
    pub fn probe(&self) -> Option<ProbeSettings>
        ensures { result ≡ probe_of self.now }
    {
        match self {
            Command::Probe { shares, at, .. } => Some(ProbeSettings {
                shares: *shares,
                at: *at,
            }),
            _ => None,
        }
    }
}
