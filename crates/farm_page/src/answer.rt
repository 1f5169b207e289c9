//! An answer: its status, its headers and its body.

ghost use Rattle.std.specs.Prelude.{◌≡◌};
ghost use Rattle.farm_page.specs.Answer as spec;

use std::marker::Model;

/// The status of an answer.
#[derive(Clone, Copy, Debug, PartialEq, Eq)]
pub enum Status {
    /// 200.
    Ok,
    /// 403.
    Forbidden,
    /// 404.
    NotFound,
    /// 405.
    MethodNotAllowed,
    /// 503.
    Unavailable,
}

impl Status {
    /// Its number.
    pub fn code(self) -> u16
        ensures { result ≡ spec.code self }
    {
        match self {
            Status::Ok => 200,
            Status::Forbidden => 403,
            Status::NotFound => 404,
            Status::MethodNotAllowed => 405,
            Status::Unavailable => 503,
        }
    }
}

/// What a body is.
#[derive(Clone, Copy, Debug, PartialEq, Eq)]
pub enum Content {
    /// A page in HTML.
    Page,
    /// A text.
    Text,
    /// Metrics in the text format of Prometheus.
    Metrics,
}

impl Content {
    /// Its media type.
    pub fn media_type(self) -> &'static str
        ensures { result.now ≡ spec.media_type self }
    {
        match self {
            Content::Page => "text/html; charset=utf-8",
            Content::Text => "text/plain; charset=utf-8",
            Content::Metrics => "text/plain; version=0.0.4; charset=utf-8",
        }
    }
}

/// The methods that something can be asked with.
#[derive(Clone, Copy, Debug, PartialEq, Eq)]
pub enum Allowed {
    /// GET and HEAD.
    Reads,
    /// POST.
    Posts,
}

impl Allowed {
    /// The methods, as the header `allow` lists them.
    pub fn methods(self) -> &'static str
        ensures { result.now ≡ spec.methods self }
    {
        match self {
            Allowed::Reads => "GET, HEAD",
            Allowed::Posts => "POST",
        }
    }
}

/// An answer to a request. Its length is for whoever sends it.
#[derive(Drop)]
pub struct Answer {
    pub(crate) status: Status,
    pub(crate) content: Content,
    pub(crate) attempt: Option<u32>,
    pub(crate) allowed: Option<Allowed>,
    pub(crate) body: Vec<u8>,
}

impl Model for Answer {
    ghost use Rattle.farm_page.specs.Told as meant;

    ghost Value = { meant.Told };

    ghost view = { λ a. record { status = a.status; content = a.content; attempt = a.attempt; allowed = a.allowed; body = a.body.items } };
}

impl Answer {
    /// Its status.
    pub fn status(&self) -> Status
        ensures { result ≡ self.now.status }
    {
        self.status
    }

    /// What its body is.
    pub fn content(&self) -> Content
        ensures { result ≡ self.now.content }
    {
        self.content
    }

    /// The number of the attempt that its body is of, if it is of one.
    pub fn attempt(&self) -> Option<u32>
        ensures { result ≡ self.now.attempt }
    {
        self.attempt
    }

    /// The methods that may be used, if another was.
    pub fn allowed(&self) -> Option<Allowed>
        ensures { result ≡ self.now.allowed }
    {
        self.allowed
    }

    /// Its body.
    pub fn into_body(self) -> Vec<u8>
        ensures { result.items ≡ self.body }
    {
        self.body
    }
}
