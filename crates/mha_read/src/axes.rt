ghost use Rattle.std.specs.Prelude.{◌≡◌, ◌^◌, ◌∷◌, [], true, pos, neg_ℤ};
ghost use Rattle.formats.specs.declared.Key.TheVariants.{Spacing, Offset as OffsetKey};
ghost use Rattle.formats.specs.Heads.{numbers_of, axes_with, axes_of, head_of_pairs};
ghost use Rattle.formats.specs.Frames.{AreAxes, unit_axes as unit_axes_lem};
ghost use Rattle.mha_read.specs.Axes.{AreBetween};
ghost use Rattle.mha_read.specs.Faults.{AreFormed, AreSupported};

use crate::decimals::ONE;
use crate::numbers::{Numbers, OFFSET_LIMIT, SPACING_LIMIT, three_between};
use crate::pairs::Pairs;
use st_base::{Axis, Key};

fn spacings_of(pairs: &Pairs) -> Numbers
    requires formed { AreFormed true pairs.now }
    requires supported { AreSupported true pairs.now }
    ensures value { result.x ∷ result.y ∷ result.z ∷ [] ≡ numbers_of pairs.now Spacing (pos (10 ^ 18)) }
    ensures bounds { AreBetween (pos 0) (pos (10 ^ 21)) result }
{
    match pairs.value(Key::Spacing) {
        Some(value) => match three_between(value, 0, SPACING_LIMIT) {
            Some(numbers) => numbers,
            None => unreachable!(),
        },
        None => Numbers {
            x: ONE,
            y: ONE,
            z: ONE,
        },
    }
}

fn offsets_of(pairs: &Pairs) -> Numbers
    requires formed { AreFormed true pairs.now }
    requires supported { AreSupported true pairs.now }
    ensures value { result.x ∷ result.y ∷ result.z ∷ [] ≡ numbers_of pairs.now OffsetKey (pos 0) }
    ensures bounds { AreBetween (neg_ℤ (pos (10 ^ 24))) (pos (10 ^ 24)) result }
{
    match pairs.value(Key::Offset) {
        Some(value) => match three_between(value, -OFFSET_LIMIT, OFFSET_LIMIT) {
            Some(numbers) => numbers,
            None => unreachable!(),
        },
        None => Numbers { x: 0, y: 0, z: 0 },
    }
}

fn axes_between(spacings: Numbers, offsets: Numbers) -> [Axis; 3]
    requires spacings { AreBetween (pos 0) (pos (10 ^ 21)) spacings }
    requires offsets { AreBetween (neg_ℤ (pos (10 ^ 24))) (pos (10 ^ 24)) offsets }
    ensures value { result ≡ axes_with (spacings.x ∷ spacings.y ∷ spacings.z ∷ []) (offsets.x ∷ offsets.y ∷ offsets.z ∷ []) }
    ensures within { AreAxes result }
{
    [
        Axis {
            spacing: spacings.x,
            offset: offsets.x,
        },
        Axis {
            spacing: spacings.y,
            offset: offsets.y,
        },
        Axis {
            spacing: spacings.z,
            offset: offsets.z,
        },
    ]
}

fn axes_read(pairs: &Pairs) -> [Axis; 3]
    requires formed { AreFormed true pairs.now }
    requires supported { AreSupported true pairs.now }
    ensures value { result ≡ axes_of true pairs.now }
    ensures within { AreAxes result }
{
    axes_between(spacings_of(pairs), offsets_of(pairs))
}

fn unit_axes() -> [Axis; 3]
    ensures value { result ≡ unit_axes_lem }
    ensures within { AreAxes result }
{
    let axis = Axis {
        spacing: ONE,
        offset: 0,
    };
    [axis, axis, axis]
}

/// The axes that the pairs say, in the volume's own units or in index units.
#[tactic(auto, unfolding(formats::specs::Heads::head_of_pairs))]
pub fn axes_in(pairs: &Pairs, world: bool) -> [Axis; 3]
    requires formed { AreFormed world pairs.now }
    requires supported { AreSupported world pairs.now }
    ensures value { result ≡ (head_of_pairs world pairs.now).axes }
    ensures within { AreAxes result }
{
    if world { axes_read(pairs) } else { unit_axes() }
}
