//! Writes a volume as the text of a .mha file.
#![tactic(auto)]

ghost use Rattle.std.specs.Prelude.{◌≡◌, ◌≤◌, ◌<◌, ◌^◌, ◌++◌, codes, decimal, flat_map, length, IfOk, OnOk};
ghost use Rattle.std.specs.Int.{cast_unsigned, w64};
ghost use Rattle.byteorder.specs.Endian.{little_bytes};
ghost use Rattle.mha_write.specs.ReadBack.{ReadsAs};
ghost use Rattle.mha_write.specs.Text.{type_name, sizes_text, plain_head, mha_file};

use itoa::Buffer;
use sample_numbers::bytes_per_sample;
use st_base::{Dims, Kind, NoMemory, Samples, Volume};
use std::alloc::{AllocError, Global};

// The lines of a head up to the sizes, and the name of the line of sizes.
const FRONT: &[u8] = b"ObjectType = Image
NDims = 3
BinaryData = True
BinaryDataByteOrderMSB = False
CompressedData = False
TransformMatrix = 1 0 0 0 1 0 0 0 1
Offset = 0 0 0
CenterOfRotation = 0 0 0
AnatomicalOrientation = RAI
ElementSpacing = 1 1 1
DimSize = ";

// A head has fewer bytes than this.
const HEAD_ROOM: usize = 384;

fn name_of(kind: Kind) -> &'static [u8]
    ensures { result.now ≡ type_name kind }
{
    match kind {
        Kind::Uchar => b"MET_UCHAR",
        Kind::Char => b"MET_CHAR",
        Kind::Ushort => b"MET_USHORT",
        Kind::Short => b"MET_SHORT",
        Kind::Uint => b"MET_UINT",
        Kind::Int => b"MET_INT",
    }
}

// The three sizes with a blank between each two, at the end of a text.
fn push_sizes(text: &mut Vec<u8>, dims: Dims) -> Result<(), AllocError>
    ensures { OnOk result (text.new.items ≡ text.old.items ++ sizes_text dims) }
{
    let mut buffer = Buffer::new();
    text.extend_from_slice(buffer.format(dims.nx).as_bytes())?;
    text.push(b' ')?;
    text.extend_from_slice(buffer.format(dims.ny).as_bytes())?;
    text.push(b' ')?;
    text.extend_from_slice(buffer.format(dims.nz).as_bytes())
}

// The plain head at the end of a text.
fn push_head(text: &mut Vec<u8>, dims: Dims, kind: Kind) -> Result<(), AllocError>
    ensures { OnOk result (text.new.items ≡ text.old.items ++ plain_head dims kind) }
{
    text.extend_from_slice(FRONT)?;
    push_sizes(text, dims)?;
    text.extend_from_slice(b"\nElementType = ")?;
    text.extend_from_slice(name_of(kind))?;
    text.extend_from_slice(b"\nElementDataFile = LOCAL\n")?;
    Ok(())
}

// The first bytes of a sample, the least significant first, at the end of a text.
#[inline]
fn push_sample(text: &mut Vec<u8>, sample: i64, size: usize) -> Result<(), AllocError>
    requires { size ≤ 8 }
    ensures { OnOk result (text.new.items ≡ text.old.items ++
        little_bytes size (cast_unsigned w64 sample)) }
{
    text.extend_from_slice(&sample.to_le_bytes()[..size])?;
    Ok(())
}

// The same of each sample.
fn push_samples(text: &mut Vec<u8>, samples: &Samples, size: usize) -> Result<(), AllocError>
    requires { size ≤ 8 }
    ensures { OnOk result (text.new.items ≡ text.old.items ++
        flat_map (λ z. little_bytes size (cast_unsigned w64 z)) samples.now.numbers) }
{
    for n in 0..samples.len() {
        push_sample(text, samples.get(n), size)?;
    }
    Ok(())
}

fn push_all(text: &mut Vec<u8>, volume: &Volume) -> Result<(), AllocError>
    ensures { OnOk result (text.new.items ≡ text.old.items ++ mha_file volume.now) }
{
    push_head(text, volume.dims(), volume.kind())?;
    push_samples(text, volume.samples(), bytes_per_sample(volume.kind()))
}

/// The text of a .mha file of the volume: a plain head with its sizes and its type, and the samples
/// with the least significant byte first. The step is not in it: read with step 1, it is the same
/// volume with step 1.
///
/// ```rust
/// let volume = phantom(alloc, 64, 7)?;
/// let text = mha_text(alloc, &volume)?;
/// ```
pub fn mha_text(alloc: Global, volume: &Volume) -> Result<Vec<u8>, NoMemory>
    ensures text { IfOk result (λ text. text.items ≡ mha_file volume.now) }
    ensures reads_back { IfOk result (λ text. ReadsAs text.items volume.now) }
{
    let bytes = volume.samples().len() * bytes_per_sample(volume.kind());
    let Ok(mut text) = Vec::with_capacity(alloc, HEAD_ROOM + bytes) else {
        return Err(NoMemory);
    };
    match push_all(&mut text, volume) {
        Ok(()) => Ok(text),
        Err(_) => Err(NoMemory),
    }
}
