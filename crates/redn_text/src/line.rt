//! The lines of a text.

ghost use Rattle.std.specs.Prelude.{◌≡◌, ◌<◌, ◌≤◌, ◌∷◌, ◌++◌, [], IfNone, IfSome, length};
ghost use Rattle.std.specs.List.{prefix_len};
ghost use Rattle.redn_text.specs.Texts.{is_no_newline, lines_of};

/// How many bytes stand before the first newline.
pub fn line_len(text: &[u8]) -> usize
    ensures value { result ≡ prefix_len is_no_newline text.now }
    ensures within { result ≤ length text.now }
{
    text.iter().take_while(|b| **b != b'\n').count()
}

/// The first line of a text, with its newline, and what stands behind it; or none where no line is
/// left. A last line may lack its newline.
pub fn next_line(text: &[u8]) -> Option<(&[u8], &[u8])>
    ensures found { IfSome result (λ p. lines_of text.now ≡ p.0.now ∷ lines_of p.1.now) }
    ensures whole { IfSome result (λ p. text.now ≡ p.0.now ++ p.1.now) }
    ensures shorter { IfSome result (λ p. length p.1.now < length text.now) }
    ensures none { IfNone result (lines_of text.now ≡ []) }
{
    if text.is_empty() {
        return None;
    }
    let end = line_len(text);
    if end == text.len() {
        return Some(text.split_at(end));
    }
    Some(text.split_at(end + 1))
}
