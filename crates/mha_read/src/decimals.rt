ghost use Rattle.std.specs.Prelude.{◌≡◌, ◌<◌, ◌≤◌, ◌+◌, ◌-◌, ◌*◌, ◌^◌, ◌&&◌, nat_lt, length, pos, if◌then◌else◌, true, Some, None, IfSome};
ghost use Rattle.std.specs.List.{list_all, list_any, position_or_len, before_first, after_first};
ghost use Rattle.std.specs.Str.Parse.{digits_value};
ghost use Rattle.std.specs.Char.{is_ascii_digit};
ghost use Rattle.formats.specs.Decimals.{is_point, is_exponent_mark, without_sign, whole_part, fraction_part, is_plain_form, is_exponent, is_decimal, is_plain_decimal, decimal_size, decimal_units, has_minus};

/// One in units of 10^-18.
pub const ONE: i128 = 1_000_000_000_000_000_000;

// The place of the first point, or the length where there is none.
fn place_of_point(text: &[u8]) -> usize
    ensures value { result ≡ position_or_len is_point text.now }
    ensures bound { result ≤ length text.now }
{
    for (i, byte) in text.iter().enumerate() {
        if *byte == b'.' {
            return i;
        }
    }
    text.len()
}

fn exponent_mark(byte: u8) -> bool
    ensures { result ≡ is_exponent_mark byte }
{
    byte == b'e' || byte == b'E'
}

// The place of the first mark of an exponent, or the length where there is none.
fn place_of_exponent(text: &[u8]) -> usize
    ensures value { result ≡ position_or_len is_exponent_mark text.now }
    ensures bound { result ≤ length text.now }
    ensures found { list_any is_exponent_mark text.now ≡ true → result < length text.now }
{
    for (i, byte) in text.iter().enumerate() {
        if exponent_mark(*byte) {
            return i;
        }
    }
    text.len()
}

fn has_exponent(text: &[u8]) -> bool
    ensures { result ≡ list_any is_exponent_mark text.now }
{
    text.iter().any(|byte| *byte == b'e' || *byte == b'E')
}

// What stands before the mark of the exponent, and what behind it.
fn cut_at_exponent(text: &[u8]) -> (&[u8], &[u8])
    requires { list_any is_exponent_mark text.now ≡ true }
    ensures before { result.0.now ≡ before_first is_exponent_mark text.now }
    ensures after { result.1.now ≡ after_first is_exponent_mark text.now }
{
    let at = place_of_exponent(text);
    (&text[..at], &text[at + 1..])
}

// What stands behind an optional sign.
fn behind_sign(text: &[u8]) -> &[u8]
    ensures { result.now ≡ without_sign text.now }
{
    match text {
        [] => text,
        [first, rest @ ..] => {
            if *first == b'+' || *first == b'-' {
                rest
            } else {
                text
            }
        }
    }
}

fn minus(text: &[u8]) -> bool
    ensures { result ≡ has_minus text.now }
{
    match text {
        [] => false,
        [first, ..] => *first == b'-',
    }
}

// What stands before the first point, and what behind it.
fn cut_at_point(text: &[u8]) -> (&[u8], &[u8])
    ensures before { result.0.now ≡ before_first is_point text.now }
    ensures after { result.1.now ≡ after_first is_point text.now }
{
    let at = place_of_point(text);
    if at < text.len() {
        (&text[..at], &text[at + 1..])
    } else {
        (text, &text[at..])
    }
}

fn digits(text: &[u8]) -> bool
    ensures { result ≡ list_all is_ascii_digit text.now }
{
    text.iter().all(|byte| byte.is_ascii_digit())
}

// The digits before the point, and those behind it.
fn parts(text: &[u8]) -> (&[u8], &[u8])
    ensures whole { result.0.now ≡ whole_part text.now }
    ensures fraction { result.1.now ≡ fraction_part text.now }
{
    cut_at_point(behind_sign(text))
}

fn plain_form(text: &[u8]) -> bool
    ensures { result ≡ is_plain_form text.now }
{
    let (whole, fraction) = parts(text);
    digits(whole) && digits(fraction) && (!whole.is_empty() || !fraction.is_empty())
}

fn exponent(text: &[u8]) -> bool
    ensures { result ≡ is_exponent text.now }
{
    let rest = behind_sign(text);
    digits(rest) && !rest.is_empty()
}

/// An optional sign, digits with at most one point, and an exponent or none.
pub fn decimal(text: &[u8]) -> bool
    ensures { result ≡ is_decimal text.now }
{
    if has_exponent(text) {
        let (front, behind) = cut_at_exponent(text);
        plain_form(front) && exponent(behind)
    } else {
        plain_form(text)
    }
}

// The number that digits write, where it is below a million.
fn below_million(digits: &[u8]) -> Option<u32>
    ensures { result ≡ (if list_all is_ascii_digit digits.now && nat_lt (digits_value 10 digits.now) 1000000 then Some (digits_value 10 digits.now) else None) }
{
    let mut value = 0u32;
    for digit in digits {
        if *digit < b'0' || *digit > b'9' {
            return None;
        }
        value = value * 10 + u32::from(*digit - b'0');
        if value >= 1_000_000 {
            return None;
        }
    }
    Some(value)
}

// The number that at most 18 digits write.
fn short_number(digits: &[u8]) -> Option<u64>
    requires { length digits.now ≤ 18 }
    ensures value { result ≡ (if list_all is_ascii_digit digits.now then Some (digits_value 10 digits.now) else None) }
    ensures bound { IfSome result (λ n. n < 10 ^ length digits.now) }
{
    let mut value = 0u64;
    for digit in digits {
        if *digit < b'0' || *digit > b'9' {
            return None;
        }
        value = value * 10 + u64::from(*digit - b'0');
    }
    Some(value)
}

// A number of so many decimals, in units of 10^-18.
fn scaled(number: u64, decimals: usize) -> u64
    requires few { decimals ≤ 18 }
    requires small { number < 10 ^ decimals }
    ensures value { result ≡ number * 10 ^ (18 - decimals) }
    ensures bound { result < 10 ^ 18 }
{
    number * 10u64.pow(18 - decimals as u32)
}

// The size of a plain decimal in units of 10^-18, where it is below 10^24.
fn plain_size(text: &[u8]) -> Option<i128>
    requires { is_plain_decimal text.now ≡ true }
    ensures value { result ≡ (if nat_lt (decimal_size text.now) (10 ^ 24) then Some (pos (decimal_size text.now)) else None) }
{
    let (whole, fraction) = parts(text);
    let whole = below_million(whole)?;
    let number = short_number(fraction)?;
    Some(i128::from(whole) * ONE + i128::from(scaled(number, fraction.len())))
}

fn plain(text: &[u8]) -> bool
    ensures { result ≡ is_plain_decimal text.now }
{
    plain_form(text) && parts(text).1.len() <= 18
}

/// The number that a plain decimal is, in units of 10^-18, where its size is below 10^24.
pub fn plain_number(text: &[u8]) -> Option<i128>
    ensures value { result ≡ (if is_plain_decimal text.now && nat_lt (decimal_size text.now) (10 ^ 24) then Some (decimal_units text.now) else None) }
{
    if !plain(text) {
        return None;
    }
    let size = plain_size(text)?;
    Some(if minus(text) { -size } else { size })
}
