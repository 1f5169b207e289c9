//! A request for a page, and what it asks for.

ghost use Rattle.std.specs.Prelude.{◌≡◌};
ghost use Rattle.std.specs.Char.{is_ascii_digit};
ghost use Rattle.std.specs.List.{list_all};
ghost use Rattle.std.specs.Option.{option_copied};
ghost use Rattle.farm_page.specs.Request as spec;

use text_pieces::cut_last;

/// The method of a request.
#[derive(Clone, Copy, Debug, PartialEq, Eq)]
pub enum Method {
    /// GET.
    Get,
    /// HEAD: what GET has, less the body.
    Head,
    /// POST.
    Post,
    /// Any other.
    Other,
}

/// A request, as far as it decides what is answered.
#[derive(Clone, Copy)]
pub struct Asked<'r> {
    /// The method.
    pub method: Method,
    /// The path of the target.
    pub path: &'r [u8],
    /// The query of the target is `still`.
    pub is_still: bool,
    /// The value of the header `host`.
    pub host: Option<&'r [u8]>,
    /// The authority of the target, if the target is a whole URL.
    pub authority: Option<&'r [u8]>,
    /// The request came from this machine.
    pub is_near: bool,
    /// It has the header `poolman: drain`.
    pub asks_drain: bool,
}

/// Where a page is: the names under which it may be asked for.
#[derive(Clone, Copy)]
pub struct Site<'s> {
    /// The address and the port that it listens at, as `127.0.0.1:4780`.
    pub listen: &'s str,
    /// Further names.
    pub hosts: &'s [String],
}

/// What a request asks for.
#[derive(Clone, Copy, Debug, PartialEq, Eq)]
pub enum Place {
    /// The page.
    Page,
    /// The metrics.
    Metrics,
    /// The evidence in one text.
    Evidence,
    /// The report.
    Report,
    /// The status text.
    Status,
    /// The workers that were not alive.
    Lost,
    /// The settings of the plan that is in force in place of one that meets all least numbers.
    RelaxedSettings,
    /// The report of that plan.
    RelaxedReport,
    /// The size: how many workers are missing.
    Size,
    /// Whether the farm is well.
    Health,
    /// Whether the farm makes attempts.
    Live,
    /// The end of the farm.
    Drain,
}

/// Why a request is refused.
#[derive(Clone, Copy, Debug, PartialEq, Eq)]
pub enum Refusal {
    /// It names another host, or none.
    OtherHost,
    /// There is nothing at its path.
    NoSuchPath,
    /// What is at its path is only read.
    OnlyRead,
    /// What is at its path is only posted to.
    OnlyPosted,
    /// It asks for the end of the farm from another machine, or without the header `poolman: drain`.
    NoDrain,
}

/// Whether there are digits only, or nothing.
fn are_digits(text: &[u8]) -> bool
    ensures { result ≡ list_all is_ascii_digit text.now }
{
    text.iter().all(|byte| byte.is_ascii_digit())
}

/// The host of a value `HOST` or `HOST:PORT`.
fn host_of(value: &[u8]) -> &[u8]
    ensures { result.now ≡ spec.host_of value.now }
{
    match cut_last(b':', value) {
        Some((host, port)) => { if are_digits(port) { host } else { value } }
        None => value,
    }
}

/// Whether two values name one host.
fn is_same_host(value: &[u8], other: &[u8]) -> bool
    ensures { result ≡ spec.is_same_host value.now other.now }
{
    host_of(value).eq_ignore_ascii_case(host_of(other))
}

/// Whether a value names one of these hosts.
fn is_listed(hosts: &[String], value: &[u8]) -> bool
    ensures { result ≡ spec.is_listed hosts.now value.now }
{
    hosts
        .iter()
        .any(|host| is_same_host(value, host.as_bytes()))
}

/// Whether a value names the host of a page.
fn is_own(site: &Site<'_>, value: &[u8]) -> bool
    ensures { result ≡ spec.is_own site.now value.now }
{
    is_same_host(value, site.listen.as_bytes())
        || is_same_host(value, b"localhost")
        || is_listed(site.hosts, value)
}

/// Whether a value names the host of a page, if there is one.
fn is_own_if(site: &Site<'_>, value: Option<&[u8]>) -> bool
    ensures { result ≡ spec.is_own_if site.now (option_copied value.entry) }
{
    match value {
        Some(value) => is_own(site, value),
        None => true,
    }
}

/// Whether a request is for the host of a page, and for no other.
fn is_for(site: &Site<'_>, asked: &Asked<'_>) -> bool
    ensures { result ≡ spec.is_for site.now asked.now }
{
    (asked.host.is_some() || asked.authority.is_some())
        && is_own_if(site, asked.host)
        && is_own_if(site, asked.authority)
}

/// What is at a path.
fn place_at(path: &[u8]) -> Option<Place>
    ensures { result ≡ spec.place_at path.now }
{
    if path == b"/".as_slice() {
        Some(Place::Page)
    } else if path == b"/metrics".as_slice() {
        Some(Place::Metrics)
    } else if path == b"/evidence".as_slice() {
        Some(Place::Evidence)
    } else if path == b"/report".as_slice() {
        Some(Place::Report)
    } else if path == b"/status.txt".as_slice() {
        Some(Place::Status)
    } else if path == b"/lost".as_slice() {
        Some(Place::Lost)
    } else if path == b"/relaxed/settings".as_slice() {
        Some(Place::RelaxedSettings)
    } else if path == b"/relaxed/report".as_slice() {
        Some(Place::RelaxedReport)
    } else if path == b"/size".as_slice() {
        Some(Place::Size)
    } else if path == b"/health".as_slice() {
        Some(Place::Health)
    } else if path == b"/live".as_slice() {
        Some(Place::Live)
    } else if path == b"/drain".as_slice() {
        Some(Place::Drain)
    } else {
        None
    }
}

/// What a request for a place asks for.
fn asked_at(asked: &Asked<'_>, place: Place) -> Result<Place, Refusal>
    ensures { result ≡ spec.asked_at asked.now place }
{
    match (place, asked.method) {
        (Place::Drain, Method::Post) if asked.is_near && asked.asks_drain => Ok(place),
        (Place::Drain, Method::Post) => Err(Refusal::NoDrain),
        (Place::Drain, _) => Err(Refusal::OnlyPosted),
        (_, Method::Get | Method::Head) => Ok(place),
        _ => Err(Refusal::OnlyRead),
    }
}

/// What a request asks for, or why it is refused, by the first of the refusals in their order. A host is compared without its port, and
/// without a difference between large and small letters. Where the target has an authority, a header `host` beside it has to be of this
/// page too.
pub fn place_asked(site: &Site<'_>, asked: &Asked<'_>) -> Result<Place, Refusal>
    ensures { result ≡ spec.place_asked site.now asked.now }
{
    if !is_for(site, asked) {
        return Err(Refusal::OtherHost);
    }
    match place_at(asked.path) {
        Some(place) => asked_at(asked, place),
        None => Err(Refusal::NoSuchPath),
    }
}
