//! How the URL of a service is written: `http://HOST[:PORT][/PATH]`.

ghost use Rattle.std.specs.Prelude.{◌≡◌, ◌≤◌, IfSome, List, ℕ, length, option_map, true};
ghost use Rattle.std.specs.List.{list_all, prefix_len};
ghost use Rattle.file_keys.specs.Hosts as hosts;
ghost use Rattle.service_settings.specs.Url as spec;

use file_keys::{is_host, is_port};
use text_pieces::cut_last;

/// The parts of a URL.
#[derive(Clone, Copy)]
pub struct UrlParts<'t> {
    /// The host, with a port or without one.
    pub authority: &'t str,
    /// The path, without a slash at its end.
    pub path: &'t str,
}

/// What comes after these bytes at the start of a text.
fn after<'t>(prefix: &[u8], text: &'t [u8]) -> Option<&'t [u8]>
    ensures { option_map (λ t. t.now) result ≡ hosts.after prefix.now text.now }
{
    text.strip_prefix(prefix)
}

/// What comes before these bytes at the end of a text.
fn before<'t>(end: &[u8], text: &'t [u8]) -> Option<&'t [u8]>
    ensures { option_map (λ t. t.now) result ≡ hosts.before end.now text.now }
{
    text.strip_suffix(end)
}

fn is_visible(text: &[u8]) -> bool
    ensures { result ≡ spec.is_visible text.now }
{
    text.iter().all(|byte| byte.is_ascii_graphic())
}

fn is_host_with_port(authority: &[u8]) -> bool
    ensures { result ≡ spec.is_host_with_port authority.now }
{
    match cut_last(b':', authority) {
        Some((host, port)) => is_host(host) && is_port(port),
        None => false,
    }
}

// ---- what is between the slashes

fn is_authority(authority: &[u8]) -> bool
    ensures { result ≡ spec.is_authority authority.now }
{
    is_visible(authority) && (is_host(authority) || is_host_with_port(authority))
}

fn has_no_mark(path: &[u8]) -> bool
    ensures { result ≡ list_all spec.is_no_mark path.now }
{
    path.iter().all(|byte| *byte != b'?' && *byte != b'#')
}

fn is_path(path: &[u8]) -> bool
    ensures { result ≡ spec.is_path path.now }
{
    is_visible(path) && has_no_mark(path)
}

fn authority_len(rest: &[u8]) -> usize
    ensures value { result ≡ prefix_len spec.is_no_slash rest.now }
    ensures within { result ≤ length rest.now }
{
    rest.iter().take_while(|byte| **byte != b'/').count()
}

fn without_slash(path: &[u8]) -> &[u8]
    ensures { result.now ≡ spec.without_slash path.now }
{
    match before(b"/", path) {
        Some(prefix) => prefix,
        None => path,
    }
}

/// The parts of what follows the scheme.
fn parts_after(rest: &[u8]) -> Option<UrlParts<'_>>
    ensures parts { option_map (λ p. (p.authority.now, p.path.now)) result ≡ spec.parts_after rest.now }
    ensures authority { IfSome result (λ p. spec.is_authority p.authority.now ≡ true) }
    ensures path { IfSome result (λ p. spec.is_path p.path.now ≡ true) }
{
    let (authority, path) = rest.split_at(authority_len(rest));
    let path = without_slash(path);
    if !is_authority(authority) || !is_path(path) {
        return None;
    }
    let Ok(authority) = std::str::from_utf8(authority) else {
        return None;
    };
    match std::str::from_utf8(path) {
        Ok(path) => Some(UrlParts { authority, path }),
        Err(_) => None,
    }
}

/// The parts of a text that is a URL.
pub fn parts_of(text: &[u8]) -> Option<UrlParts<'_>>
    ensures parts { option_map (λ p. (p.authority.now, p.path.now)) result ≡ spec.parts_of text.now }
    ensures authority { IfSome result (λ p. spec.is_authority p.authority.now ≡ true) }
    ensures path { IfSome result (λ p. spec.is_path p.path.now ≡ true) }
{
    parts_after(after(b"http://", text)?)
}

/// Whether a text begins as a URL with encryption does.
pub fn is_https(text: &[u8]) -> bool
    ensures { result ≡ spec.is_https text.now }
{
    after(b"https://", text).is_some()
}
