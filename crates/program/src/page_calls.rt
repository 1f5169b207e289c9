//! The host of a farm, as a drain has it.

use drain_command::Caller;
use http_jobs::CallTimes;
use serve_command::FarmHost;

/// What a drain is lent by the host of a farm: the page is called as a service is.
#[derive(Drop)]
pub struct PageCalls<'h, H> {
    /// The host.
    pub host: &'h H,
}

impl<'h, H: FarmHost> Caller for PageCalls<'h, H> {
    type Link = H::Call;

    type Dials = H::Dials;

    type Times = H::Times;

    fn dials(&self, address: String, times: CallTimes) -> H::Dials {
        self.host.dials(address, times)
    }

    fn times(&self) -> H::Times {
        self.host.times()
    }

    fn pause(&self, milliseconds: u32) {
        self.host.pause(milliseconds);
    }
}
