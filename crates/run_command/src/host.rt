//! What a run is lent by the machine that it is on.
ghost use Rattle.std.specs.Prelude.{◌≡◌, IfOk, IfSome};
ghost use Rattle.job_runner.specs.Run.{seen_link};
ghost use Rattle.pool_supervisor.specs.Dials.{IsNew};
ghost use Rattle.run_command.specs.Texts as spec;

use crate::text_link::TextLink;
use byte_io::{Device, LAST_TIMEOUT, Sink, Source};
use pool_settings::Settings;
use pool_supervisor::{Dial, Progress, Watch};
use std::alloc::{AllocError, Global};
use std::marker::Model;
use std::snapshot::Snapshot;
use std::sync::Wait;
use std::thread::Threads;

/// What a run is lent by the machine that it is on: threads, links to a job server, a clock, and somebody who is told what
/// happens.
pub trait Host: Threads + Wait + Watch + Progress + Sync {
    /// A link to a job server.
    type Link: Source + Sink + Send + Drop;

    /// A new link to the server, which is named as `host:port`, or none if it cannot be reached. A read of the link that gets nothing
    /// for so many milliseconds is a timeout. The link has given and taken nothing, and has counted no failure.
    fn reach(&self, server: &str, lull_ms: u32) -> Option<Self::Link>
        ensures fresh { IfSome result (λ link. IsNew (seen_link Self.Link.input Self.Link.output link)) };

    /// The server took the last link, and gave no status. It may be elsewhere by now, so its name is looked up for the next link.
    fn doubt(&self) {}
}

/// How many milliseconds one write to the job server may take at most: 65 timeouts of a read.
pub fn write_ms(settings: &Settings) -> u32
    ensures limit { result ≡ spec.write_ms settings.now }
{
    settings.lull_ms().saturating_mul(LAST_TIMEOUT)
}

/// In how many milliseconds after its first write a text has to be taken by the job server, as the answer to a job is one: in as many as a
/// job may take, or as one write may take, if that is more.
pub fn text_ms(settings: &Settings) -> u32
    ensures limit { result ≡ spec.text_ms settings.now }
{
    settings.job_timeout_ms().max(write_ms(settings))
}

/// How many milliseconds the answer to a request for the status may take at most: ten seconds, or as many as one write may take, if that is
/// more.
pub fn status_ms(settings: &Settings) -> u32
    ensures limit { result ≡ spec.status_ms settings.now }
{
    write_ms(settings).max(10_000)
}

/// Makes links from a host to one server. On each link each text has a deadline.
#[derive(Drop)]
pub struct Route<'e, H> {
    /// Where the links begin.
    host: &'e H,
    /// The server, as `host:port`.
    server: String,
    /// After how many milliseconds a read that gets nothing is a timeout.
    lull_ms: u32,
    /// In how many milliseconds a text has to be taken.
    text_ms: u32,
    /// In how many milliseconds a status has to be read.
    status_ms: u32,
}

impl<'e, H> Model for Route<'e, H> {
    ghost use Rattle.std.specs.Prelude.{string_bytes};
    ghost use Rattle.run_command.specs.Texts as meant;

    ghost Value = { meant.Route };

    ghost view = { λ r. record {
      server = string_bytes r.server;
      lull_ms = r.lull_ms;
      text_ms = r.text_ms;
      status_ms = r.status_ms;
    } };
}

impl<'e, H: Host> Route<'e, H> {
    /// To the server of these settings, by their times. The only error is out of memory.
    pub fn new(host: &'e H, alloc: Global, settings: &Settings) -> Result<Route<'e, H>, AllocError>
        ensures route { IfOk result (λ route. route ≡ spec.route_by settings.now) }
    {
        Ok(Route {
            host,
            server: String::from_str(alloc, settings.server())?,
            lull_ms: settings.lull_ms(),
            text_ms: text_ms(settings),
            status_ms: status_ms(settings),
        })
    }
}

impl<'e, H: Host> Dial<TextLink<'e, H::Link, H>> for Route<'e, H> {
    ghost use Rattle.std.specs.Prelude.{◌≡◌, None};

    ghost calls = { λ _. None };

    fn dial(&mut self) -> Option<TextLink<'e, H::Link, H>>
        ensures fresh { IfSome result (λ link. IsNew (seen_link ⟦<TextLink<'e, H::Link, H> as Device>⟧.input
            ⟦<TextLink<'e, H::Link, H> as Device>⟧.output link)) }
        ensures limit { IfSome result (λ link. link.limit_ms ≡ self.old.text_ms) }
        ensures unlimited { IfSome result (λ link. link.read_until ≡ None) }
        ensures same { self.new ≡ self.old }
    {
        let link = self.host.reach(self.server.as_str(), self.lull_ms)?;
        Some(TextLink::new(link, self.host, self.text_ms))
    }

    /// A link whose answer has to be read in time.
    fn dial_for_status(&mut self) -> Option<TextLink<'e, H::Link, H>>
        ensures fresh { IfSome result (λ link. IsNew (seen_link ⟦<TextLink<'e, H::Link, H> as Device>⟧.input
            ⟦<TextLink<'e, H::Link, H> as Device>⟧.output link)) }
        ensures limit { IfSome result (λ link. link.limit_ms ≡ self.old.text_ms) }
        ensures same { self.new ≡ self.old }
    {
        let mut link = self.dial()?;
        link.limit_reading(self.status_ms, self.host.now_ms());
        Some(link)
    }

    fn hung_up(&mut self, _link: Snapshot<TextLink<'e, H::Link, H>>)
        ensures { self.new ≡ self.old }
    {}
}
