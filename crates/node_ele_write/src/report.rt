ghost use Rattle.std.specs.Prelude.{◌≡◌, ◌+◌, ◌++◌, decimal, OnOk, IfOk};
ghost use Rattle.mesh_texts.specs.Report.{sign_text as sign_text_lem, cosine_text, angle_line, angle_lines, place_of_angle, report_text as report_text_lem};

use crate::text::counts_text;
use definitions::{Cosine, Extreme, Extremes};
use itoa::Buffer;
use st_base::NoMemory;
use std::alloc::{AllocError, Global};

// The sign in front of a fraction, none in front of 0.
fn sign_text(sign: i8) -> &'static [u8]
    ensures { result.now ≡ sign_text_lem sign }
{
    if sign > 0 {
        b"+"
    } else if sign < 0 {
        b"-"
    } else {
        b""
    }
}

// Appends a fraction with its sign. Memory may run out in the middle, here and below.
fn add_cosine(out: &mut Vec<u8>, cosine: Cosine) -> Result<(), AllocError>
    ensures { OnOk result (out.new.items ≡ out.old.items ++ cosine_text cosine) }
{
    let mut num = Buffer::new();
    let mut den = Buffer::new();
    out.extend_from_slice(sign_text(cosine.sign))?;
    out.extend_from_slice(num.format(cosine.num).as_bytes())?;
    out.push(b'/')?;
    out.extend_from_slice(den.format(cosine.den).as_bytes())?;
    Ok(())
}

// Appends a text and a number that is counted from `first`.
fn add_number(out: &mut Vec<u8>, before: &[u8], first: u32, number: u64) -> Result<(), AllocError>
    ensures { OnOk result (out.new.items ≡ out.old.items ++ (before.now ++ decimal (first + number))) }
{
    let mut buffer = Buffer::new();
    out.extend_from_slice(before)?;
    out.extend_from_slice(
        buffer
            .format(u128::from(first) + u128::from(number))
            .as_bytes(),
    )?;
    Ok(())
}

// Appends the second half of the line of an angle: where it is, numbered from `first`.
fn add_where(out: &mut Vec<u8>, angle: Extreme, first: u32) -> Result<(), AllocError>
    ensures { OnOk result (out.new.items ≡ out.old.items ++ place_of_angle first angle) }
{
    add_number(out, b"tetrahedron ", first, angle.tet)?;
    add_number(out, b" edge ", first, u64::from(angle.ends[0]))?;
    add_number(out, b" ", first, u64::from(angle.ends[1]))?;
    out.push(b'\n')?;
    Ok(())
}

// Appends the line of an angle.
fn add_angle(out: &mut Vec<u8>, word: &[u8], angle: Extreme, first: u32) -> Result<(), AllocError>
    ensures { OnOk result (out.new.items ≡ out.old.items ++ angle_line first word.now angle) }
{
    out.extend_from_slice(word)?;
    out.push(b' ')?;
    add_cosine(out, angle.cosine)?;
    out.push(b' ')?;
    add_where(out, angle, first)?;
    Ok(())
}

// Appends the lines of the least and the greatest angle.
fn add_angles(out: &mut Vec<u8>, extremes: Option<Extremes>, first: u32) -> Result<(), AllocError>
    ensures { OnOk result (out.new.items ≡ out.old.items ++ angle_lines first extremes) }
{
    match extremes {
        None => out.extend_from_slice(b"no tetrahedra\n"),
        Some(extremes) => {
            add_angle(out, b"least", extremes.least, first)?;
            add_angle(out, b"greatest", extremes.greatest, first)?;
            Ok(())
        }
    }
}

/// What is told of a mesh: how many nodes and tetrahedra there are, and the least and the greatest angle, or that
/// there are no tetrahedra. The extremes are numbered from 0, and told as numbered from `numbering`.
#[tactic(auto, unfolding(mesh_texts::specs::Report::report_text))]
pub fn report_text(
    alloc: Global,
    nodes: u32,
    tets: u64,
    extremes: Option<Extremes>,
    numbering: u32,
) -> Result<Vec<u8>, NoMemory>
    ensures { IfOk result (λ text. text.items ≡ report_text_lem nodes tets extremes numbering) }
{
    let mut out = counts_text(alloc, nodes, tets)?;
    match add_angles(&mut out, extremes, numbering) {
        Ok(()) => Ok(out),
        Err(_) => Err(NoMemory),
    }
}
