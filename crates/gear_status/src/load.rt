//! A load: the functions of a status text with their counts, in the order of its lines.

ghost use Rattle.std.specs.Prelude.{◌≡◌, [], IfOk, OnErr, OnOk};
ghost use Rattle.gear_status.specs.Status.{put, waiting};

use indexmap::IndexMap;
use std::alloc::{AllocError, Global};
use std::marker::Model;

/// What a status line says of its function.
#[derive(Clone, Copy, Debug, PartialEq, Eq)]
pub struct Counts {
    /// Jobs in the queue, those that run among them.
    pub total: u32,
    /// Jobs that run.
    pub running: u32,
    /// Workers that have registered for the function.
    pub workers: u32,
}

/// The functions of a status text with their counts, in the order of their first lines.
#[derive(Drop)]
pub struct Load {
    lines: IndexMap<Vec<u8>, Counts>,
}

impl Model for Load {
    ghost use Rattle.std.specs.Prelude.{List};
    ghost use Rattle.gear_status.specs.Status.{Line};

    ghost Value = { List Line };

    ghost use Rattle.gear_status.specs.Entries.{lines_view};

    ghost view = { λ l. lines_view l.lines.entries };
}

impl Load {
    /// A load without lines. It takes no memory before the first `set`.
    pub fn new(alloc: Global) -> Load
        ensures no_lines { result ≡ [] }
    {
        Load {
            lines: IndexMap::new(alloc),
        }
    }

    /// Sets the counts of a name, which may be any bytes. A name that is there keeps its place, and a new one goes last.
    /// If there is no memory for it, the load stays as it was.
    pub fn set(
        &mut self,
        name: &[u8],
        total: u32,
        running: u32,
        workers: u32,
    ) -> Result<(), AllocError>
        ensures ok { OnOk result (self.new ≡ put self.old (name.now, record { total = total; running = running; workers = workers })) }
        ensures err { OnErr result (self.new ≡ self.old) }
    {
        let counts = Counts {
            total,
            running,
            workers,
        };
        self.set_counts(name, counts)
    }

    /// As `set`, with the counts as one value.
    pub fn set_counts(&mut self, name: &[u8], counts: Counts) -> Result<(), AllocError>
        ensures ok { OnOk result (self.new ≡ put self.old (name.now, counts)) }
        ensures err { OnErr result (self.new ≡ self.old) }
    {
        let key = Vec::from_slice(*self.lines.allocator(), name)?;
        self.lines.insert(key, counts)?;
        Ok(())
    }

    /// How many jobs of a name wait for a worker: the queue less those that run, and 0 if more run or the name is not
    /// there. It looks the name up by its hash.
    pub fn waiting(&self, name: &[u8]) -> u32
        ensures jobs { result ≡ waiting self.now name.now }
    {
        match self.lines.get(name) {
            Some(counts) => counts.total.saturating_sub(counts.running),
            None => 0,
        }
    }

    /// An equal load: the same lines in the same order. The only error is out of memory.
    pub fn copy(&self) -> Result<Load, AllocError>
        ensures { IfOk result (λ load. load ≡ self.now) }
    {
        Ok(Load {
            lines: self.lines.clone()?,
        })
    }
}
