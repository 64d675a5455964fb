ghost use Rattle.std.specs.Prelude.{◌≡◌, ℤ, Some, IfSome, option_map};
ghost use Rattle.command_line.specs.Grammar.{IsUnits};
ghost use Rattle.command_words.specs.Settings.{units_value};

/// Whether a text is `world` rather than `index`. None: it is neither.
pub fn is_world(text: &[u8]) -> Option<bool>
    ensures text { IfSome result (λ world. IsUnits text.now (units_value world)) }
    ensures found { (value : ℤ) → IsUnits text.now value → option_map units_value result ≡ Some value }
{
    if text == b"index".as_slice() {
        return Some(false);
    }
    if text == b"world".as_slice() {
        return Some(true);
    }
    None
}
