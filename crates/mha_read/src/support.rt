ghost use Rattle.std.specs.Prelude.{◌≡◌, ◌==◌, not, is_some, Some, None, Option, option_map, if◌then◌else◌, filter_map, Bool, true, IfOk, IfErr, IfSome};
ghost use Rattle.std.specs.Str.Parse.{digits_value};
ghost use Rattle.formats.specs.Counts.{is_count};
ghost use Rattle.std.specs.Str.{bytes_eq};
ghost use Rattle.formats.specs.Heads.{is_supported, is_true_value, kind_of, refusal, keys as all_keys, head_of_pairs};
ghost use Rattle.mha_read.specs.Faults.{first_of, judged, IsJudgement, AreFormed, AreSupported};
ghost use Rattle.mha_read.specs.RawSizes.{AreRawSizes};
ghost use Rattle.formats.specs.Frames.{AreAxes};
ghost use Rattle.mha_read.specs.Formed.{HasNumber};

use crate::axes::axes_in;
use crate::counts::{count, raw_sizes};
use crate::forms::{KEYS, first_form_fault, keys_in};
use crate::numbers::{are_offsets, are_spacings};
use crate::pairs::{Pairs, is_text};
use st_base::{Head, HeadFault, Key, Kind};

fn is_true(value: &[u8]) -> bool
    ensures { result ≡ is_true_value value.now }
{
    match value {
        [] => false,
        [first, ..] => *first == b'T' || *first == b't' || *first == b'1',
    }
}

fn kind_named(name: &[u8]) -> Option<Kind>
    ensures { result ≡ kind_of name.now }
{
    if is_text(name, b"MET_UCHAR") {
        Some(Kind::Uchar)
    } else if is_text(name, b"MET_CHAR") {
        Some(Kind::Char)
    } else if is_text(name, b"MET_USHORT") {
        Some(Kind::Ushort)
    } else if is_text(name, b"MET_SHORT") {
        Some(Kind::Short)
    } else if is_text(name, b"MET_UINT") {
        Some(Kind::Uint)
    } else if is_text(name, b"MET_INT") {
        Some(Kind::Int)
    } else {
        None
    }
}

fn has_value(digits: &[u8], wanted: u32) -> bool
    requires { is_count digits.now ≡ true }
    ensures { result ≡ (digits_value 10 digits.now == wanted) }
{
    match count(digits) {
        Some(value) => value == wanted,
        None => false,
    }
}

fn supports(key: Key, value: &[u8]) -> bool
    requires { HasNumber key value.now }
    ensures { result ≡ is_supported key value.now }
{
    match key {
        Key::ObjectType => is_text(value, b"Image"),
        Key::NDims => has_value(value, 3),
        Key::BinaryData => is_true(value),
        Key::ByteOrder => true,
        Key::CompressedData => !is_true(value),
        Key::Channels => has_value(value, 1),
        Key::DimSize => true,
        Key::ElementType => kind_named(value).is_some(),
        Key::DataFile => {
            is_text(value, b"LOCAL") || is_text(value, b"Local") || is_text(value, b"local")
        }
        Key::Spacing => are_spacings(value),
        Key::Offset => are_offsets(value),
    }
}

#[tactic(auto, unfolding(formats::specs::Heads::refusal))]
fn refusal_of(pairs: &Pairs, key: Key, world: bool) -> Option<HeadFault>
    requires { AreFormed world pairs.now }
    ensures value { result ≡ refusal pairs.now key }
    ensures kind { IfSome result IsJudgement }
{
    match pairs.value(key) {
        Some(value) => {
            if supports(key, value) {
                None
            } else {
                Some(HeadFault::Unsupported { key })
            }
        }
        None => None,
    }
}

fn first_refusal(pairs: &Pairs, world: bool) -> Option<HeadFault>
    requires { AreFormed world pairs.now }
    ensures value { result ≡ first_of (filter_map (refusal pairs.now) (all_keys world)) }
    ensures kind { IfSome result IsJudgement }
{
    let keys = KEYS;
    for key in keys_in(&keys, world) {
        let fault = refusal_of(pairs, *key, world);
        if fault.is_some() {
            return fault;
        }
    }
    None
}

fn sizes_of(pairs: &Pairs, world: bool) -> [u32; 3]
    requires formed { AreFormed world pairs.now }
    requires supported { AreSupported world pairs.now }
    ensures value { result ≡ (head_of_pairs world pairs.now).raw }
    ensures sizes { AreRawSizes result }
{
    match pairs.value(Key::DimSize) {
        Some(value) => match raw_sizes(value) {
            Some(sizes) => sizes,
            None => unreachable!(),
        },
        None => unreachable!(),
    }
}

#[tactic(auto, unfolding(formats::specs::Heads::head_of_pairs))]
fn kind_in(pairs: &Pairs) -> Kind
    ensures { (world : Bool) → result ≡ (head_of_pairs world pairs.now).kind }
{
    match pairs.value(Key::ElementType) {
        Some(name) => kind_named(name).unwrap_or(Kind::Uchar),
        None => Kind::Uchar,
    }
}

#[tactic(auto, unfolding(formats::specs::Heads::head_of_pairs))]
fn is_big(pairs: &Pairs) -> bool
    ensures { (world : Bool) → result ≡ (head_of_pairs world pairs.now).big }
{
    match pairs.value(Key::ByteOrder) {
        Some(value) => is_true(value),
        None => false,
    }
}

/// The head that the pairs say, or the first fault of form in the order of keys, or else the first
/// refusal.
pub fn judge(pairs: &Pairs, world: bool) -> Result<Head, HeadFault>
    ensures value { result ≡ judged world pairs.now }
    ensures sizes { IfOk result (λ head. AreRawSizes head.raw) }
    ensures axes { IfOk result (λ head. AreAxes head.axes) }
    ensures kind { IfErr result IsJudgement }
{
    if let Some(fault) = first_form_fault(pairs, world) {
        return Err(fault);
    }
    if let Some(fault) = first_refusal(pairs, world) {
        return Err(fault);
    }
    Ok(Head {
        raw: sizes_of(pairs, world),
        kind: kind_in(pairs),
        big: is_big(pairs),
        axes: axes_in(pairs, world),
    })
}
