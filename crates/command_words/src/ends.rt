ghost use Rattle.std.specs.Prelude.{◌≡◌, ◌++◌, List, ℕ, Some, IfSome};
ghost use Rattle.std.specs.Option.{option_copied};

/// What stands before the end of a text. None: the text does not end so.
pub fn before_end<'a>(text: &'a [u8], end: &[u8]) -> Option<&'a [u8]>
    ensures parts { IfSome result (λ front. text.now ≡ front.now ++ end.now) }
    ensures found { (front : List ℕ) → text.now ≡ front ++ end.now → option_copied result ≡ Some front }
{
    if text.len() < end.len() {
        return None;
    }
    let (front, back) = text.split_at(text.len() - end.len());
    if back == end { Some(front) } else { None }
}

/// What stands after the start of a text. None: the text does not start so.
pub fn after_start<'a>(text: &'a [u8], start: &[u8]) -> Option<&'a [u8]>
    ensures parts { IfSome result (λ rest. text.now ≡ start.now ++ rest.now) }
    ensures found { (rest : List ℕ) → text.now ≡ start.now ++ rest → option_copied result ≡ Some rest }
{
    if text.len() < start.len() {
        return None;
    }
    let (front, rest) = text.split_at(start.len());
    if front == start { Some(rest) } else { None }
}
