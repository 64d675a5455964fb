ghost use Rattle.std.specs.Prelude.{◌≡◌, ◌<◌, ◌+◌, ◌^◌, ◌++◌, [], ◌∷◌, codes, decimal, map, unsigned_abs, IfOk, OnOk};
ghost use Rattle.definitions.specs.States.{states as states_of};
ghost use Rattle.formats.specs.Texts.{line};
ghost use Rattle.vertex_numbers.specs.Counts.{layer_counts};
ghost use Rattle.mesh_probe.specs.ProbeTexts.{hold_line as hold_line_lem, probe_text};

use crate::Hold;
use crate::number::hold_number;
use crate::point::probe;
use itoa::Buffer;
use samples::Field;
use snap_rule::{Shares, States};
use st_base::{NoMemory, Place, Tally};
use std::alloc::{AllocError, Global};
use vertex_numbers::Offsets;

// Appends a text and a number. Memory may run out in the middle.
fn add_number(out: &mut Vec<u8>, before: &[u8], number: u64) -> Result<(), AllocError>
    ensures { OnOk result (out.new.items ≡ out.old.items ++ (before.now ++ decimal number)) }
{
    let mut buffer = Buffer::new();
    out.extend_from_slice(before)?;
    out.extend_from_slice(buffer.format(number).as_bytes())
}

// The line of a tetrahedron that holds a point.
fn hold_line(alloc: Global, number: u64, weights: [u64; 4]) -> Result<Vec<u8>, AllocError>
    ensures { IfOk result (λ text. text.items ≡ hold_line_lem number (map decimal weights)) }
{
    let [a, b, c, d] = weights;
    let mut text = Vec::new(alloc);
    add_number(&mut text, b"tetrahedron ", number)?;
    add_number(&mut text, b" weights ", a)?;
    add_number(&mut text, b" ", b)?;
    add_number(&mut text, b" ", c)?;
    add_number(&mut text, b" ", d)?;
    text.push(b'\n')?;
    Ok(text)
}

// The line of a point outside the mesh.
fn outside_line(alloc: Global) -> Result<Vec<u8>, AllocError>
    ensures { IfOk result (λ text. text.items ≡ line (codes "outside" ∷ [])) }
{
    Vec::from_slice(alloc, b"outside\n")
}

/// The line that tells which tetrahedron of the mesh holds a point: its number from 0, and the weights of its nodes in
/// their order, each six times the volume that the point and the other three span, in cubes of 1/8192 of a voxel step; or
/// `outside`. Each coordinate of the point is below 2^40 in size.
pub fn probe_line(
    alloc: Global,
    field: &Field,
    shares: Shares,
    states: &States,
    offsets: &Offsets,
    point: Place,
) -> Result<Vec<u8>, NoMemory>
    requires sizes { states.now.dims ≡ field.now.dims }
    requires states { states.now.states ≡ states_of field.now shares }
    requires offsets { offsets.now ≡ layer_counts field.now.dims (states_of field.now shares) }
    requires x { unsigned_abs point.x < 2 ^ 40 }
    requires y { unsigned_abs point.y < 2 ^ 40 }
    requires z { unsigned_abs point.z < 2 ^ 40 }
    ensures { IfOk result (λ text. text.items ≡ probe_text field.now shares point) }
{
    let mut made = Tally::new();
    match probe(field, shares, point, &mut made) {
        Some(hold) => {
            let number = hold_number(field, shares, states, offsets, &hold);
            let Ok(text) = hold_line(alloc, number, hold.weights) else {
                return Err(NoMemory);
            };
            Ok(text)
        }
        None => {
            let Ok(text) = outside_line(alloc) else {
                return Err(NoMemory);
            };
            Ok(text)
        }
    }
}
