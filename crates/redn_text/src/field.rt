//! Fields with a separator between.

ghost use Rattle.std.specs.Prelude.{◌≡◌, ◌≤◌, ℕ, List, length, IfSome, IfNone};
ghost use Rattle.std.specs.List.{prefix_len};
ghost use Rattle.redn_text.specs.Texts.{is_not, IsSplit};

/// What stands before the first separator, and what behind it, or none where it has no separator.
pub fn split_field(text: &[u8], separator: u8) -> Option<(&[u8], &[u8])>
    ensures found { IfSome result (λ p. IsSplit separator text.now p.0.now p.1.now) }
    ensures none { IfNone result ((front behind : List ℕ) → ¬ IsSplit separator text.now front behind) }
{
    let (front, rest) = text.split_at(field_len(text, separator));
    let Some((_separator, behind)) = rest.split_first() else {
        return None;
    };
    Some((front, behind))
}

/// How many bytes stand before the first separator.
fn field_len(text: &[u8], separator: u8) -> usize
    ensures value { result ≡ prefix_len (is_not separator) text.now }
    ensures within { result ≤ length text.now }
{
    text.iter().take_while(|b| **b != separator).count()
}
