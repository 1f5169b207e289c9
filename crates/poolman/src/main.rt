//! `poolman`: plans of a pool of Gearman workers, each shown to be best, runs of such a pool, and farms of services that do its jobs.
#![tactic(auto)]

use command_line::{Command, command_of};
use devices::{InputSource, OutputSink};
use fault_detail::{Reader, complain};
use plan_commands::Fault;
use program::{Lent, program};
use serve_command::{
    Edges, FarmSystem, SharedPage, drain_at_signals, end_with_input, serve_page, write_lines,
};
use std::alloc::{AllocError, Global};
use std::fs::{File, OpenOptions};
use std::hash::RandomState;
use std::process::ExitCode;
use std::sync::{Arc, Wait};
use std::thread::Threads;
use std::time::Clock;
use std::{env, fs, io, thread};

/// For how many milliseconds at most the end of a farm waits for whoever reads its lines.
const LAST_LINES_MS: u32 = 5_000;

/// For how many milliseconds at most it waits for whoever reads its page: for longer than the answer to a drain may take to be written.
const LAST_PEERS_MS: u32 = 6_000;

/// The words of the command line, the program's name first.
fn words(rt: &HostRuntime) -> io::Result<Vec<String>> {
    let mut words = Vec::new(rt.alloc());
    for word in env::args(rt)? {
        words.push(word)?;
    }
    Ok(words)
}

/// What the words ask for, if they are the words of a command.
fn asked(alloc: Global, words: &io::Result<Vec<String>>) -> Option<Command<'_>> {
    command_of(alloc, words.as_ref().ok()?).ok()
}

/// Who reads standard error: people, if it is a terminal, which the system's table of open files shows by its name, or if the errors of the
/// command are for people wherever they go, as into a journal.
fn reader_of(rt: &HostRuntime, command: &Option<Command<'_>>) -> Reader {
    match fs::read_link(rt, "/proc/self/fd/2") {
        Ok(path) if is_terminal(path.as_str()) => Reader::Person,
        _ => reader_anywhere(command),
    }
}

/// Who reads the errors of a command that do not go to a terminal. Scripts read those of `plan`, `check`, `replay` and `run`, line by line.
fn reader_anywhere(command: &Option<Command<'_>>) -> Reader {
    match command {
        Some(
            Command::Serve { .. }
            | Command::Drain { .. }
            | Command::Settings { .. }
            | Command::Size { .. }
            | Command::CheckSize { .. },
        ) => Reader::Person,
        _ => Reader::Program,
    }
}

/// Whether a device of this name is a terminal.
fn is_terminal(name: &str) -> bool {
    name.starts_with("/dev/pts/") || name.starts_with("/dev/tty") || name == "/dev/console"
}

/// Takes the number of a standard stream that is closed, so that no socket or file gets it and is read or written in its place. What takes
/// it can be read or written, but not as the stream is, so a use of the stream fails as before.
fn hold_if_closed(rt: &HostRuntime, stream: &str, options: &OpenOptions) -> Option<File> {
    match fs::read_link(rt, stream) {
        Ok(_) => None,
        Err(_) => options.open(rt, "/dev/null").ok(),
    }
}

/// Takes the numbers of those standard streams that are closed.
fn hold_streams(rt: &HostRuntime) -> [Option<File>; 3] {
    let mut for_writing = OpenOptions::new();
    for_writing.write(true);
    let mut for_reading = OpenOptions::new();
    for_reading.read(true);
    [
        hold_if_closed(rt, "/proc/self/fd/0", &for_writing),
        hold_if_closed(rt, "/proc/self/fd/1", &for_reading),
        hold_if_closed(rt, "/proc/self/fd/2", &for_reading),
    ]
}

/// Which threads a farm has at its edges.
#[derive(Clone, Copy, Debug, PartialEq, Eq)]
enum EdgeThreads {
    /// None: the words ask for no farm.
    None,
    /// One that writes its lines, and those of its page.
    Lines,
    /// Those, and one that reads standard input for its end.
    LinesAndInput,
}

/// The threads that a command asks for.
fn edge_threads(command: &Option<Command<'_>>) -> EdgeThreads {
    match command {
        Some(Command::Serve { until_input, .. }) if *until_input => EdgeThreads::LinesAndInput,
        Some(Command::Serve { .. }) => EdgeThreads::Lines,
        _ => EdgeThreads::None,
    }
}

/// What a farm shares with the threads at its edges, once for itself and once for each of them.
#[derive(Drop)]
struct Handles {
    own: Arc<Edges>,
    of_lines: Arc<Edges>,
    of_input: Arc<Edges>,
    of_signals: Arc<Edges>,
    of_page: Arc<SharedPage>,
}

impl Handles {
    /// Those of a farm of this process that goes on, or of none. The only error is out of memory.
    fn new(rt: &HostRuntime, threads: EdgeThreads) -> Result<Handles, AllocError> {
        let alloc = rt.alloc();
        let edges = match threads {
            EdgeThreads::None => Edges::new(alloc)?,
            EdgeThreads::Lines | EdgeThreads::LinesAndInput => Edges::of_process(rt)?,
        };
        let of_page = Arc::try_clone(&edges.page)?;
        let own = Arc::new(alloc, edges)?;
        Ok(Handles {
            of_lines: Arc::try_clone(&own)?,
            of_input: Arc::try_clone(&own)?,
            of_signals: Arc::try_clone(&own)?,
            of_page,
            own,
        })
    }
}

/// Prints that memory, or a thread, was refused.
fn end_lacking(rt: &HostRuntime) -> ExitCode {
    complain(&Fault::Memory, &mut OutputSink::new(rt.stderr()));
    ExitCode::from(Fault::Memory.status())
}

/// Starts the threads that a farm has at its edges, and gives what it shares with them. Nobody joins them: a read of standard input may
/// never return, and neither may a write. None if memory, a thread or the keys of a hash were refused.
fn start_threads<R: Threads + Wait + Clock + Copy + Send + Sync + Drop + 'static>(
    rt: R,
    host: HostRuntime,
    threads: EdgeThreads,
    handles: Handles,
) -> Option<Arc<Edges>> {
    let Handles {
        own,
        of_lines,
        of_input,
        of_signals,
        of_page,
    } = handles;
    if threads == EdgeThreads::None {
        return Some(own);
    }
    thread::spawn(
        &rt,
        move || write_lines(&rt, &of_lines.lines, &mut io::writer(&host)),
    )
    .ok()?;
    if threads == EdgeThreads::LinesAndInput {
        thread::spawn(
            &rt,
            move || end_with_input(&rt, &mut host.reader(), &of_input.end),
        )
        .ok()?;
    }
    let alloc = host.alloc();
    if own.drains_at_signals() {
        thread::spawn(
            &rt,
            move || drain_at_signals(&rt, &host, alloc, &of_signals.end),
        )
        .ok()?;
    }
    let keys = RandomState::new(&host).ok()?;
    thread::spawn(&rt, move || serve_page(rt, alloc, keys, &of_page)).ok()?;
    Some(own)
}

fn main(rt: HostRuntime) -> ExitCode {
    let _streams = hold_streams(&rt);
    let alloc = rt.alloc();
    let words = words(&rt);
    let command = asked(alloc, &words);
    let threads = edge_threads(&command);
    let reader = reader_of(&rt, &command);
    drop(command);
    let Ok(handles) = Handles::new(&rt, threads) else {
        return end_lacking(&rt);
    };
    let Some(edges) = start_threads(rt, rt, threads, handles) else {
        return end_lacking(&rt);
    };
    let lent = Lent {
        files: &rt,
        host: &FarmSystem::new(&rt, &edges),
        alloc,
        reader,
    };
    let status = program(
        lent,
        words,
        &mut InputSource::new(rt.reader()),
        &mut OutputSink::new(io::writer(&rt)),
        &mut OutputSink::new(rt.stderr()),
    );
    if threads != EdgeThreads::None {
        edges.page.close(&rt, LAST_PEERS_MS);
        edges.lines.close(&rt, LAST_LINES_MS);
    }
    ExitCode::from(status)
}
