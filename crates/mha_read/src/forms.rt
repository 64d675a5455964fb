ghost use Rattle.std.specs.Prelude.{◌≡◌, ◌≢◌, ◌==◌, nat_lt, length, Some, None, Option, if◌then◌else◌, filter_map, true, IfSome};
ghost use Rattle.formats.specs.declared.Key.TheVariants.{NDims, DimSize, Spacing, Offset};
ghost use Rattle.formats.specs.Counts.{is_count, is_positive_count};
ghost use Rattle.formats.specs.Heads.{is_well_formed, is_required, are_decimals, form_fault, dimensions, keys as all_keys};
ghost use Rattle.mha_read.specs.Faults.{first_of, IsJudgement};

use crate::counts::{count, positive_count, size_count};
use crate::numbers::decimal_count;
use crate::pairs::Pairs;
use st_base::{HeadFault, Key};

/// The keys in the order in which they are looked at.
pub const KEYS: [Key; 11] = [
    Key::ObjectType,
    Key::NDims,
    Key::BinaryData,
    Key::ByteOrder,
    Key::CompressedData,
    Key::Channels,
    Key::DimSize,
    Key::ElementType,
    Key::DataFile,
    Key::Spacing,
    Key::Offset,
];

/// The keys that are looked at, with the volume's own units or without them.
pub fn keys_in(keys: &[Key; 11], world: bool) -> &[Key]
    requires { keys.now ≡ all_keys true }
    ensures { result.now ≡ all_keys world }
{
    if world { &keys[..] } else { &keys[..9] }
}

fn dimension_count(pairs: &Pairs) -> Option<u32>
    ensures { form_fault pairs.now NDims ≡ None → result ≡ Some (dimensions pairs.now) }
{
    match pairs.value(Key::NDims) {
        Some(value) => positive_count(value),
        None => None,
    }
}

// As many sizes as there are dimensions.
fn has_sizes(pairs: &Pairs, value: &[u8]) -> bool
    ensures { form_fault pairs.now NDims ≡ None → result ≡ is_well_formed pairs.now DimSize value.now }
{
    match dimension_count(pairs) {
        Some(dimensions) => match size_count(value) {
            Some(sizes) => sizes == dimensions as usize,
            None => false,
        },
        None => false,
    }
}

// As many decimals as there are dimensions.
fn has_decimals(pairs: &Pairs, value: &[u8]) -> bool
    ensures { form_fault pairs.now NDims ≡ None → result ≡ are_decimals pairs.now value.now }
{
    match dimension_count(pairs) {
        Some(dimensions) => match decimal_count(value) {
            Some(decimals) => decimals == dimensions as usize,
            None => false,
        },
        None => false,
    }
}

fn is_formed(pairs: &Pairs, key: Key, value: &[u8]) -> bool
    ensures others { key ≢ DimSize → key ≢ Spacing → key ≢ Offset → result ≡ is_well_formed pairs.now key value.now }
    ensures all { form_fault pairs.now NDims ≡ None → result ≡ is_well_formed pairs.now key value.now }
{
    match key {
        Key::ObjectType => !value.is_empty(),
        Key::NDims => positive_count(value).is_some(),
        Key::BinaryData => true,
        Key::ByteOrder => true,
        Key::CompressedData => true,
        Key::Channels => count(value).is_some(),
        Key::DimSize => has_sizes(pairs, value),
        Key::ElementType => !value.is_empty(),
        Key::DataFile => !value.is_empty(),
        Key::Spacing => has_decimals(pairs, value),
        Key::Offset => has_decimals(pairs, value),
    }
}

fn required(key: Key) -> bool
    ensures { result ≡ is_required key }
{
    matches!(key, Key::NDims | Key::DimSize | Key::ElementType)
}

// The fault of form of a key, where the ones before it have none.
#[tactic(auto, unfolding(formats::specs::Heads::form_fault))]
fn fault_of_form(pairs: &Pairs, key: Key) -> Option<HeadFault>
    ensures others { key ≢ DimSize → key ≢ Spacing → key ≢ Offset → result ≡ form_fault pairs.now key }
    ensures all { form_fault pairs.now NDims ≡ None → result ≡ form_fault pairs.now key }
    ensures kind { IfSome result IsJudgement }
{
    match pairs.value(key) {
        Some(value) => {
            if is_formed(pairs, key, value) {
                None
            } else {
                Some(HeadFault::BadValue { key })
            }
        }
        None => {
            if required(key) {
                Some(HeadFault::Missing { key })
            } else {
                None
            }
        }
    }
}

/// The first key, in the order of keys, that is not there though it must be, or whose value is not
/// well formed.
pub fn first_form_fault(pairs: &Pairs, world: bool) -> Option<HeadFault>
    ensures value { result ≡ first_of (filter_map (form_fault pairs.now) (all_keys world)) }
    ensures kind { IfSome result IsJudgement }
{
    let keys = KEYS;
    for key in keys_in(&keys, world) {
        let fault = fault_of_form(pairs, *key);
        if fault.is_some() {
            return fault;
        }
    }
    None
}
