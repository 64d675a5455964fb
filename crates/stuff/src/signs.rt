ghost use Rattle.std.specs.Prelude.{◌≡◌, ◌≢◌, ◌++◌, [], ℕ, List, true, IfOk, OnOk, decimal};
ghost use Rattle.formats.specs.declared.Port.{Port};
ghost use Rattle.formats.specs.declared.Port.TheVariants.{Report, Trouble};
ghost use Rattle.st_base.specs.Frames.{OnlyPort};
ghost use Rattle.stuff.specs.Ports.{IsAtOutput, PortsEnd};
ghost use Rattle.stuff.specs.Outputs.{signs_text};
ghost use Rattle.formats.specs.Texts.{sign_line};
ghost use Rattle.stuff.specs.Signs.{signs_line};

use crate::files::write_report;
use itoa::Buffer;
use samples::{Field, Signs, count_signs};
use st_base::{Desk, NoMemory, Status};
use std::alloc::{AllocError, Global};

// A text, and then a number.
fn add(text: &mut Vec<u8>, name: &[u8], number: u64) -> Result<(), AllocError>
    ensures { OnOk result (text.new.items ≡ text.old.items ++ (name.now ++ decimal number)) }
{
    let mut buffer = Buffer::new();
    text.extend_from_slice(name)?;
    text.extend_from_slice(buffer.format(number).as_bytes())?;
    Ok(())
}

// The line of three counts.
fn line_of(alloc: Global, signs: Signs) -> Result<Vec<u8>, AllocError>
    ensures { IfOk result (λ text. text.items ≡ signs_line signs.plus signs.zero signs.minus) }
{
    let mut text = Vec::new(alloc);
    add(&mut text, b"plus ", signs.plus)?;
    add(&mut text, b" zero ", signs.zero)?;
    add(&mut text, b" minus ", signs.minus)?;
    text.push(b'\n')?;
    Ok(text)
}

/// The line that tells how many vertices of a field have each sign, before any is moved.
#[tactic(auto, unfolding(formats::specs::Texts::sign_line))]
pub fn sign_text(alloc: Global, field: &Field) -> Result<Vec<u8>, NoMemory>
    ensures { IfOk result (λ text. text.items ≡ sign_line field.now) }
{
    match line_of(alloc, count_signs(field)) {
        Ok(text) => Ok(text),
        Err(_) => Err(NoMemory),
    }
}

/// Writes the line of a field's signs to Report.
pub fn write_signs<D: Desk>(alloc: Global, desk: &mut D, field: &Field) -> Status
    requires report { (D.ports desk.old Report).is_open ≡ true }
    requires faults { (p : Port) → p ≢ Trouble → (D.ports desk.old p).faults ≡ 0 }
    ensures kind { IsAtOutput result }
    ensures report_open { (D.ports desk.new Report).is_open ≡ true }
    ensures ends { (name : Port → List ℕ) → PortsEnd D.ports result [] name (λ p text. text ≡ signs_text field.now p) desk.old desk.new }
    ensures apart { OnlyPort D.Desk Report desk.old desk.new }
{
    match sign_text(alloc, field) {
        Ok(text) => write_report(desk, &text),
        Err(NoMemory) => Status::NoMemory,
    }
}
