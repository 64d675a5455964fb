ghost use Rattle.std.specs.Prelude.{◌≡◌, ◌+◌, ℕ, All, length};
ghost use Rattle.std.specs.Option.{ForSome};
ghost use Rattle.dihedral.specs.Fractions.{AreFractions};
ghost use Rattle.slab_emit.specs.declared.Lines.{Lines};
ghost use Rattle.slab_emit.specs.Parts.{AreParts};
ghost use Rattle.slab_emit.specs.Sources.{AreMeasured, SourceValue};
ghost use Rattle.mesh_rounds.specs.Rounds.{extremes_to};

use dihedral::{Extremes, fold};
use slab_emit::Part;

/// The extremes of those before and of parts that follow.
pub fn fold_parts(before: Option<Extremes>, parts: &[Part]) -> Option<Extremes>
    requires before { ForSome before AreFractions }
    requires parts { All (λ p. ForSome p.extremes AreFractions) parts.now }
    ensures fractions { ForSome result AreFractions }
    ensures found { (lines : Lines) (s : SourceValue) (first : ℕ) → AreMeasured s → AreParts lines s first parts.now → before ≡ extremes_to lines s first → result ≡ extremes_to lines s (first + length parts.now) }
{
    let mut all = before;
    for number in 0..parts.len() {
        all = fold(all, parts[number].extremes);
    }
    all
}
