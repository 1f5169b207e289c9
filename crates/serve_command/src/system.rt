//! The system as the host of a farm.

use crate::addresses::Addresses;
use crate::host::FarmHost;
use crate::line_queue::LineQueue;
use crate::manager::{FarmManager, Stage};
use crate::signals::signals_line;
use devices::{DialError, Folder, TcpLink};
use end_signals::{EndSignals, SignalsUnread, read_signals};
use farm_page::{FailureView, FarmView};
use http_jobs::{CallTimes, SystemClock, TcpDial};
use page_server::{Door, EndFlag, PageTimes, SharedPage};
use plan_model::FuncId;
use pool_settings::Settings;
use run_command::{Attempted, EndedWorker, Host, Progress, RunEnd, System, Watch, time_in_seconds};
use server_link::ServerLink;
use service_manager::ManagerError;
use service_settings::Page;
use std::alloc::{AllocError, Global};
use std::io;
use std::net::{Ipv4Addr, Net, TcpListener, TcpStream, UdpSocket};
use std::rt::{Clock, Env};
use std::sync::{Arc, Wait};
use std::thread::Threads;

/// What a farm shares with the threads at its edges, which nobody joins: one that raises the flag when it has to end, one that writes its
/// lines, and those of its page.
#[derive(Drop)]
pub struct Edges {
    /// Whether it has to end.
    pub end: Arc<EndFlag>,
    /// Its lines.
    pub lines: LineQueue,
    /// Its page.
    pub page: Arc<SharedPage>,
    /// Which signals drain it.
    pub signals: Result<EndSignals, SignalsUnread>,
    /// Its service manager, if it has one.
    pub manager: Result<Option<FarmManager>, ManagerError>,
}

impl Edges {
    /// Those of a farm that goes on, before its first line. No signal drains it, and it has no service manager. The only error is out of
    /// memory.
    pub fn new(alloc: Global) -> Result<Edges, AllocError> {
        let end = Arc::new(alloc, EndFlag::new())?;
        let page = SharedPage::new(alloc, Arc::try_clone(&end)?);
        Ok(Edges {
            end,
            lines: LineQueue::new(alloc),
            page: Arc::new(alloc, page)?,
            signals: Ok(EndSignals::Neither),
            manager: Ok(None),
        })
    }

    /// The same of a farm that this process runs: the signals drain it that were blocked when the process started, and its service manager
    /// is the one that the environment names. The only error is out of memory.
    pub fn of_process<R: Env + Folder + Alloc<A = Global>>(rt: &R) -> Result<Edges, AllocError> {
        let mut edges = Edges::new(rt.alloc())?;
        edges.signals = read_signals(rt, rt.alloc()).map(|status| status.blocked);
        edges.manager = FarmManager::of_environment(rt);
        Ok(edges)
    }

    /// Whether a signal drains it.
    pub fn drains_at_signals(&self) -> bool {
        matches!(
            self.signals,
            Ok(EndSignals::Terminate | EndSignals::Interrupt | EndSignals::Both)
        )
    }

    /// Its service manager, if it has one that can be told something.
    fn manager(&self) -> Option<&FarmManager> {
        self.manager.as_ref().ok()?.as_ref()
    }
}

/// The door of a page, if the system opens its address.
fn door_of<R: Net<Stream = TcpStream, Listener = TcpListener>>(
    rt: &R,
    alloc: Global,
    page: &Page,
    times: PageTimes,
) -> io::Result<Door> {
    let listener = TcpListener::bind(rt, page.listen())?;
    listener.set_nonblocking(true)?;
    let mut hosts = Vec::new(alloc);
    for host in page.hosts() {
        hosts.push(String::from_str(alloc, host.as_str())?)?;
    }
    Ok(Door {
        listener,
        listen: String::from_str(alloc, page.listen())?,
        hosts,
        times,
        backlog: page.backlog(),
    })
}

/// The system as the host of a farm, and of a run as [`System`] is. Connections are opened over TCP. Each line of a farm is put after
/// the time, as RFC 3339 writes it, and into the queue.
#[derive(Drop)]
pub struct FarmSystem<'m, R> {
    rt: R,
    run: System<R>,
    edges: &'m Edges,
    addresses: Addresses,
}

impl<'m, R: Env + Alloc<A = Global> + Copy> FarmSystem<'m, R> {
    /// The system, with these edges.
    pub fn new(rt: R, edges: &'m Edges) -> FarmSystem<'m, R> {
        FarmSystem {
            rt,
            run: System::new(rt),
            edges,
            addresses: Addresses::new(rt.alloc()),
        }
    }
}

impl<'m, R: Clock + Alloc<A = Global>> FarmSystem<'m, R> {
    /// The time, as RFC 3339 writes it. None if the clock cannot be read, or if memory runs out.
    fn time_text(&self) -> Option<String> {
        let time = time_in_seconds(&self.rt)?;
        format!(in self.rt.alloc(); "{time}").ok()
    }

    /// A line after the time, with its line feed. The only error is out of memory.
    fn stamped(&self, line: Result<String, AllocError>) -> Result<String, AllocError> {
        let line = line?;
        match time_in_seconds(&self.rt) {
            Some(time) => format!(in self.rt.alloc(); "{time} {line}\n"),
            None => format!(in self.rt.alloc(); "- {line}\n"),
        }
    }
}

/// How many more files can be open now, if that is less than so many: as many sockets are opened, and closed again. So many if the system
/// says that something else is lacking.
fn free_files<R: Net>(rt: &R, alloc: Global, most: u32) -> u32 {
    let address = (Ipv4Addr::LOCALHOST, 0u16);
    let mut opened = Vec::new(alloc);
    for count in 0..most {
        match UdpSocket::bind(rt, address) {
            Ok(socket) => {
                if opened.push(socket).is_err() {
                    return most;
                }
            }
            Err(error) if DialError::of_connect(&error) == DialError::TooManyFiles => return count,
            Err(_) => return most,
        }
    }
    most
}

impl<'m, R: Threads> Threads for FarmSystem<'m, R> {}

impl<'m, R: Wait> Wait for FarmSystem<'m, R> {}

impl<'m, R: Clock + Wait> Watch for FarmSystem<'m, R> {
    fn now_ms(&self) -> Option<u64> {
        self.run.now_ms()
    }

    fn pause(&self, milliseconds: u32) {
        self.run.pause(milliseconds);
    }

    fn has_to_end(&self) -> bool {
        self.edges.end.is_raised(&self.rt)
    }
}

/// A run's progress, as [`System`] writes it.
impl<'m, R: Wait + Clock + Eprint + Alloc<A = Global>> Progress for FarmSystem<'m, R> {
    fn lacks_job(&self, settings: &Settings, function: FuncId) {
        self.run.lacks_job(settings, function);
    }

    fn attempted(&self, made: &Attempted<'_>) {
        self.run.attempted(made);
    }

    fn ended(&self, ended: &EndedWorker<'_>) {
        self.run.ended(ended);
    }

    fn finished(&self, ended: &RunEnd) {
        self.run.finished(ended);
    }
}

impl<
    'm,
    R: Threads
        + Wait
        + Clock
        + Eprint
        + Alloc<A = Global>
        + Net<Stream = TcpStream>
        + Sync
        + Send
        + Copy,
> Host for FarmSystem<'m, R> {
    type Link = ServerLink<TcpLink, R>;

    /// A link that fails if the job server answers nothing, and lets its worker look up if the job server talks without end.
    fn reach(&self, server: &str, lull_ms: u32) -> Option<ServerLink<TcpLink, R>> {
        let link = self.run.reach_until_end(self, server, lull_ms)?;
        Some(ServerLink::new(link, self.rt))
    }

    fn doubt(&self) {
        self.run.doubt();
    }
}

impl<
    'm,
    R: Threads
        + Wait
        + Clock
        + Eprint
        + Alloc<A = Global>
        + Net<Stream = TcpStream, Listener = TcpListener>
        + Sync
        + Send
        + Copy,
> FarmHost for FarmSystem<'m, R> {
    type Call = TcpLink;

    type Dials = TcpDial<R>;

    type Times = SystemClock<R>;

    fn dials(&self, host: String, times: CallTimes) -> TcpDial<R> {
        let last = self.addresses.of(&self.rt, self.rt.alloc(), host.as_str());
        let dials = TcpDial::new(self.rt, host, times);
        match last {
            Ok(last) => dials.beside(&self.rt, last),
            Err(_) => dials,
        }
    }

    fn looks(&self, host: String, times: CallTimes) -> TcpDial<R> {
        self.dials(host, times).from_last()
    }

    fn times(&self) -> SystemClock<R> {
        SystemClock::new(self.rt)
    }

    fn free_files(&self, most: u32) -> u32 {
        free_files(&self.rt, self.rt.alloc(), most)
    }

    fn last_failure(&self) -> Option<DialError> {
        self.run.last_failure()
    }

    fn is_to_end(&self) -> bool {
        self.edges.end.is_raised(&self.rt)
    }

    fn begin_end(&self) {
        self.edges.end.raise(&self.rt);
    }

    fn rest(&self, milliseconds: u32) {
        self.edges.end.rest(&self.rt, milliseconds);
    }

    fn rest_until_rung(&self, milliseconds: u32) -> bool {
        self.edges.end.rest_until_rung(&self.rt, milliseconds)
    }

    fn ring(&self) {
        self.edges.end.ring(&self.rt);
    }

    fn dated(&self, failure: FailureView) -> FailureView {
        let mut failure = failure;
        if let Some(time) = self.time_text() {
            failure.time = time;
        }
        failure
    }

    fn tell(&self, line: Result<String, AllocError>) {
        self.edges.lines.put(&self.rt, self.stamped(line));
    }

    fn tell_last(&self, line: Result<String, AllocError>) {
        self.edges.lines.put_last(&self.rt, self.stamped(line));
    }

    fn tell_start(&self) {
        let alloc = self.rt.alloc();
        self.tell(signals_line(alloc, &self.edges.signals));
        if let Err(why) = &self.edges.manager {
            self.tell(format!(in alloc; "nomanager ({why})"));
        }
    }

    fn note_stage(&self, stage: Stage) {
        if let Some(manager) = self.edges.manager() {
            manager.note(&self.rt, stage);
        }
    }

    fn note_alive(&self) {
        if let Some(manager) = self.edges.manager() {
            manager.note_alive();
        }
    }

    fn open_page(&self, page: &Page, times: PageTimes) -> io::Result<()> {
        let door = door_of(&self.rt, self.rt.alloc(), page, times)?;
        self.edges.page.open(&self.rt, door);
        Ok(())
    }

    fn show(&self, view: FarmView) {
        let mut view = view;
        view.time = self.time_text();
        if let Ok(view) = Arc::new(self.rt.alloc(), view) {
            self.edges.page.shown.show(&self.rt, view);
        }
    }

    fn tell_end(&self, text: String) {
        self.edges.page.end_text.tell(&self.rt, text);
    }
}
