//! What may be sent in a request.

ghost use Rattle.std.specs.Prelude.{◌≡◌};
ghost use Rattle.http_jobs.specs.Values.{is_sent, is_visible};

use httparse::{is_header_value, is_space_or_tab};

/// Whether the bytes may be a header's value, and are not empty.
pub fn is_sent(value: &[u8]) -> bool
    ensures { result ≡ is_sent value.now }
{
    match value {
        [] => false,
        [first, ..] if is_space_or_tab(*first) => false,
        [.., last] if is_space_or_tab(*last) => false,
        _ => is_header_value(value),
    }
}

/// Whether the bytes are visible characters of ASCII.
pub fn is_visible(text: &[u8]) -> bool
    ensures { result ≡ is_visible text.now }
{
    text.iter().all(|byte| byte.is_ascii_graphic())
}
