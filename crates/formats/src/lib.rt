//! The plain types of the files and of the command line: heads, their faults, and how a command ends.
//! What the texts are, and what they mean, stands in specs/.
#![tactic(auto)]

ghost use Rattle.std.specs.Prelude.{◌≡◌};
ghost use Rattle.formats.specs.Faults.{status_code};

/// The type of a sample.
#[derive(Clone, Copy, Debug, PartialEq, Eq)]
pub enum Kind {
    Uchar,
    Char,
    Ushort,
    Short,
    Uint,
    Int,
}

/// A key of the head of a .mha file. A head is refused for the first key in this order. The last two
/// are looked at only where coordinates are in the volume's own units.
#[derive(Clone, Copy, Debug, PartialEq, Eq)]
pub enum Key {
    ObjectType,
    NDims,
    BinaryData,
    ByteOrder,
    CompressedData,
    Channels,
    DimSize,
    ElementType,
    DataFile,
    Spacing,
    Offset,
}

/// How the samples stand on an axis, in units of 10^-18: how far two neighbours are apart, and where
/// the first one is.
#[derive(Clone, Copy, Debug, PartialEq, Eq)]
pub struct Axis {
    pub spacing: i128,
    pub offset: i128,
}

/// How the coordinates of nodes are printed: every `step`-th sample is kept, and the axes of the
/// volume's own units, or `None` for index units.
#[derive(Clone, Copy, Debug, PartialEq, Eq)]
pub struct Frame {
    pub step: u32,
    pub world: Option<[Axis; 3]>,
}

/// What a head says: the raw sizes on the three axes, each from 1 to 999,999,999, the type of the
/// samples, whether the most significant byte of a sample comes first, and how the samples stand on
/// the three axes.
#[derive(Clone, Copy, Debug, PartialEq, Eq)]
pub struct Head {
    pub raw: [u32; 3],
    pub kind: Kind,
    pub big: bool,
    pub axes: [Axis; 3],
}

/// Why there is no head, or none that is supported. `place` is the number of bytes before the line.
#[derive(Clone, Copy, Debug, PartialEq, Eq)]
pub enum HeadFault {
    /// A line has no `=`, or no key before it.
    BadLine { place: u64 },
    /// A key is not there that must be.
    Missing { key: Key },
    /// The value of a key is not well formed.
    BadValue { key: Key },
    /// The value of a key is well formed and not supported.
    Unsupported { key: Key },
    /// The first 65,536 bytes have no data line.
    HeaderTooLong,
    /// The input is shorter than that and has no data line.
    HeadEnds,
    /// The input could not be read.
    ReadFault,
    /// Memory ran out.
    NoMemory,
}

/// Why a mesh file was not read. `place` is the number of bytes before the first line with a fault.
#[derive(Clone, Copy, Debug, PartialEq, Eq)]
pub enum MeshFault {
    /// The text has more than 1,073,741,824 bytes.
    TooLong,
    /// The line is not of its form, or is one too many.
    BadLine { place: u64 },
    /// The line is of its form, and a coordinate is no multiple of 1/8192 or is too large.
    BadPlace { place: u64 },
    /// The line is of its form, and names a node that is not there.
    BadNode { place: u64 },
    /// No line has a fault, and there are `got` lines where `wanted` should be.
    EndsEarly { got: u64, wanted: u64 },
    /// The input could not be read.
    ReadFault,
    /// Memory ran out.
    NoMemory,
}

/// What the tetrahedra of finished files come to. They are named by their numbers in the file, and
/// each verdict comes where none of those before it does.
#[derive(Clone, Copy, Debug, PartialEq, Eq)]
pub enum Verdict {
    /// The first tetrahedron whose volume is not above zero.
    NotPositive {
        tet: u32,
    },
    /// The first that has a triangle which is in more than two.
    Crowded {
        tet: u32,
    },
    /// The first that has a triangle which another directs the same way.
    Turned {
        tet: u32,
    },
    /// None of these: how many nodes, tetrahedra and boundary triangles there are.
    Sound {
        nodes: u32,
        tets: u32,
        boundary: u32,
    },
}

/// Where a text is written: the nodes, the tetrahedra, the report, what went wrong, the boundary
/// faces, or the neighbours of the tetrahedra.
#[derive(Clone, Copy, Debug, PartialEq, Eq)]
pub enum Port {
    Node,
    Ele,
    Report,
    Trouble,
    Face,
    Neigh,
}

/// How a command ended.
#[derive(Clone, Copy, Debug, PartialEq, Eq)]
pub enum Status {
    /// The command was carried out.
    Done,
    /// The words are not in the grammar. `place` is the number of the first word with which no
    /// command goes on, or the number of words.
    BadWords { place: u64 },
    /// The input has no head that can be read.
    BadHeader { fault: HeadFault },
    /// The value of a key of the head is not supported.
    Unsupported { key: Key },
    /// A size is above its limit. `padded` is the product of the sizes with two more on each axis.
    TooLarge { padded: u128 },
    /// The input ends before the last sample, after `got` of `wanted` bytes.
    Truncated { got: u64, wanted: u64 },
    /// The input could not be opened or read.
    ReadFault,
    /// A port could not be opened, written or finished.
    WriteFault { port: Port },
    /// Memory ran out.
    NoMemory,
    /// Faces and neighbours are asked for, and there are more than 33,554,432 tetrahedra.
    TooManyTets { tets: u64 },
    /// A finished file, of nodes or of tetrahedra, has a fault.
    BadMesh { file: Port, fault: MeshFault },
    /// The tetrahedra of finished files are not sound.
    NotSound { verdict: Verdict },
}

impl Status {
    /// The code that the process ends with.
    pub fn code(&self) -> u8
        ensures { result ≡ status_code self.now }
    {
        match self {
            Status::Done => 0,
            Status::BadWords { .. } => 2,
            Status::BadHeader { .. } => 3,
            Status::Unsupported { .. } => 4,
            Status::TooLarge { .. } => 5,
            Status::Truncated { .. } => 6,
            Status::ReadFault => 7,
            Status::WriteFault { .. } => 8,
            Status::NoMemory => 9,
            Status::TooManyTets { .. } => 10,
            Status::BadMesh { .. } => 11,
            Status::NotSound { .. } => 12,
        }
    }
}

/// How large a volume may be: each raw size, and the product of the kept sizes with two more on each
/// axis.
#[derive(Clone, Copy, Debug, PartialEq, Eq)]
pub struct Limits {
    pub dimension: u32,
    pub padded: u64,
}

impl Limits {
    ghost use Rattle.formats.specs.Volumes.{first_limits, second_limits};

    /// Raw sizes up to 8,192, and a product up to 4,194,304.
    pub fn first() -> Limits
        ensures { result ≡ first_limits }
    {
        Limits {
            dimension: 8192,
            padded: 4_194_304,
        }
    }

    /// Raw sizes up to 8,192, and a product up to 67,108,864.
    pub fn second() -> Limits
        ensures { result ≡ second_limits }
    {
        Limits {
            dimension: 8192,
            padded: 67_108_864,
        }
    }
}
