//! A text cut at one byte.

ghost use Rattle.std.specs.Prelude.{◌≡◌, ◌<◌, ℕ, List, IfSome, length, option_map};
ghost use Rattle.text_pieces.specs.Cuts as spec;

/// The text before the first such byte, and the text after it. `None` if the text has no such byte.
pub fn cut_first(byte: u8, text: &[u8]) -> Option<(&[u8], &[u8])>
    ensures parts { option_map {U = List ℕ × List ℕ} (λ p. (p.0.now, p.1.now)) result ≡ spec.cut_first byte text.now }
    ensures shorter { IfSome result (λ p. length p.1.now < length text.now) }
{
    let at = text.iter().position(|found| *found == byte)?;
    Some((&text[..at], &text[at + 1..]))
}

/// The text before the last such byte, and the text after it. `None` if the text has no such byte. It looks from the end, so a
/// short last part is found at once.
pub fn cut_last(byte: u8, text: &[u8]) -> Option<(&[u8], &[u8])>
    ensures { option_map (λ p. (p.0.now, p.1.now)) result ≡ spec.cut_last byte text.now }
{
    let mut end = text.len();
    while end > 0 {
        end -= 1;
        if text[end] == byte {
            return Some((&text[..end], &text[end + 1..]));
        }
    }
    None
}
