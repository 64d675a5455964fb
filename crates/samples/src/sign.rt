ghost use Rattle.std.specs.Prelude.{◌≡◌, true};
ghost use Rattle.definitions.specs.Values.{sign_of};

use st_base::Sign;

/// The sign of a value, or of a difference of which it is a positive multiple.
#[inline]
pub fn sign_of(value: i64) -> Sign
    ensures { result ≡ sign_of value }
{
    if value > 0 {
        Sign::Plus
    } else if value == 0 {
        Sign::Zero
    } else {
        Sign::Minus
    }
}

/// Whether it is this one.
#[inline(always)]
pub fn has_sign(value: i64, sign: Sign) -> bool
    ensures { result ≡ true → sign_of value ≡ sign }
{
    match sign {
        Sign::Plus => value > 0,
        Sign::Zero => value == 0,
        Sign::Minus => value < 0,
    }
}
