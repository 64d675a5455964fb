ghost use Rattle.std.specs.Prelude.{◌≡◌, ◌<◌, ◌≤◌, ◌^◌, nat_le, true, Some, None, IfSome, if◌then◌else◌};
ghost use Rattle.std.specs.List.{list_all};
ghost use Rattle.std.specs.Char.{is_ascii_digit};
ghost use Rattle.std.specs.Str.Parse.{digits_value};
ghost use Rattle.mesh_files.specs.Numbers.{is_number, greatest_number};

const GREATEST: u64 = 4_294_967_294;

/// Whether there are digits alone.
pub fn are_digits(text: &[u8]) -> bool
    ensures { result ≡ list_all is_ascii_digit text.now }
{
    text.iter().all(|byte| byte.is_ascii_digit())
}

/// The number that some digits write, where it is not above a greatest.
pub fn value(digits: &[u8], most: u64) -> Option<u64>
    requires digits { list_all is_ascii_digit digits.now ≡ true }
    requires most { most < 2 ^ 60 }
    ensures value { result ≡ (if nat_le (digits_value 10 digits.now) most then Some (digits_value 10 digits.now) else None) }
    ensures bound { IfSome result (λ n. n ≤ most) }
{
    let mut value = 0u64;
    for digit in digits {
        value = value * 10 + u64::from(*digit - b'0');
        if value > most {
            return None;
        }
    }
    Some(value)
}

/// A number: decimal digits without a leading zero, save 0 itself, up to 4294967294.
pub fn number(text: &[u8]) -> Option<u32>
    ensures value { result ≡ (if is_number text.now then Some (digits_value 10 text.now) else None) }
    ensures bound { IfSome result (λ n. n ≤ greatest_number) }
{
    if text.is_empty() || !are_digits(text) {
        return None;
    }
    if text.len() != 1 && text[0] == b'0' {
        return None;
    }
    match value(text, GREATEST) {
        Some(value) => Some(value as u32),
        None => None,
    }
}
