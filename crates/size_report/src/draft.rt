//! What the lines of the text of a size have said so far.

ghost use Rattle.std.specs.Prelude.{◌≡◌, ◌≢◌, OnOk, IfErr, Ok, Err, option_map, false, nat_lt, ◌<◌};
ghost use Rattle.pool_report.specs.Told.{line_view};
ghost use Rattle.size_report.specs.Lines as lines;
ghost use Rattle.size_report.specs.Reading as spec;
ghost use Rattle.size_report.specs.Told.{size_line_view};

use crate::line::{Line, read_size_line};
use crate::stage::{Kind, Stage};
use crate::workers::grown_slot_named;
use plan_model::{FuncId, FuncSet, MAX_WORKERS, MachineId, Plan, SlotId};
use plan_sizing::{Addition, Obstacle, Size};
use pool_report::{Line as ReportLine, Misread};
use pool_settings::Settings;
use std::alloc::Global;
use std::marker::Model;

/// What the lines of the text of a size have said so far.
#[derive(Drop)]
pub struct Draft {
    stage: Stage,
    kind: Kind,
    machines: Vec<MachineId>,
    entries: Vec<(SlotId, Option<FuncId>)>,
    set: Option<Vec<FuncId>>,
    next_machine: u32,
    next_slot: u32,
    next_function: u32,
}

impl Model for Draft {
    ghost use Rattle.std.specs.Prelude.{option_map};
    ghost use Rattle.size_report.specs.Drafts.{IsDraft};
    ghost use Rattle.size_report.specs.Reading.{Draft as Value_};

    ghost Value = { Value_ };

    ghost view = { λ d. record {
      stage = d.stage;
      kind = d.kind;
      machines = d.machines.items;
      entries = d.entries.items;
      set = option_map (λ s. s.items) d.set;
      next_machine = d.next_machine;
      next_slot = d.next_slot;
      next_function = d.next_function;
    } };

    ghost invariant = { λ d. IsDraft (record {
      stage = d.stage;
      kind = d.kind;
      machines = d.machines.items;
      entries = d.entries.items;
      set = option_map (λ s. s.items) d.set;
      next_machine = d.next_machine;
      next_slot = d.next_slot;
      next_function = d.next_function;
    }) };
}

fn before_tasks(stage: Stage) -> bool
    ensures { result ≡ spec.before_tasks stage }
{
    matches!(stage, Stage::Added | Stage::Tasks)
}

fn before_set(stage: Stage) -> bool
    ensures { result ≡ spec.before_set stage }
{
    matches!(stage, Stage::Added | Stage::Tasks | Stage::Beyond)
}

fn is_complete(stage: Stage) -> bool
    ensures { result ≡ spec.is_complete stage }
{
    matches!(
        stage,
        Stage::Added | Stage::Tasks | Stage::Set | Stage::Barred
    )
}

impl Draft {
    pub fn new(alloc: Global) -> Draft
        ensures { result ≡ spec.start }
    {
        Draft {
            stage: Stage::Start,
            kind: Kind::Enough,
            machines: Vec::new(alloc),
            entries: Vec::new(alloc),
            set: None,
            next_machine: 0,
            next_slot: 0,
            next_function: 0,
        }
    }

    pub fn is_done(&self) -> bool
        ensures { result ≡ spec.is_done self.now.stage }
    {
        matches!(self.stage, Stage::Done)
    }

    fn place_first(&mut self) -> Result<(), Misread>
        ensures ok { OnOk result (spec.place_first self.old ≡ Ok self.new) }
        ensures err { IfErr result (λ e. spec.place_first self.old ≡ Err e) }
    {
        if !matches!(self.stage, Stage::Start) {
            return Err(Misread::Bad);
        }
        self.stage = Stage::Level;
        Ok(())
    }

    fn place_level(&mut self) -> Result<(), Misread>
        ensures ok { OnOk result (spec.place_level self.old ≡ Ok self.new) }
        ensures err { IfErr result (λ e. spec.place_level self.old ≡ Err e) }
    {
        if !matches!(self.stage, Stage::Level) {
            return Err(Misread::Bad);
        }
        self.stage = Stage::Verdict;
        Ok(())
    }

    fn place_add(&mut self) -> Result<(), Misread>
        ensures ok { OnOk result (spec.place_add self.old ≡ Ok self.new) }
        ensures err { IfErr result (λ e. spec.place_add self.old ≡ Err e) }
    {
        if !matches!(self.stage, Stage::Verdict) {
            return Err(Misread::Bad);
        }
        self.stage = Stage::Added;
        Ok(())
    }

    fn place_too_many(&mut self, many: u64) -> Result<(), Misread>
        ensures ok { OnOk result (spec.place_too_many many self.old ≡ Ok self.new) }
        ensures err { IfErr result (λ e. spec.place_too_many many self.old ≡ Err e) }
    {
        if !matches!(self.stage, Stage::Verdict) {
            return Err(Misread::Bad);
        }
        self.stage = Stage::Beyond;
        self.kind = Kind::TooMany(many);
        Ok(())
    }

    fn place_short(&mut self) -> Result<(), Misread>
        ensures ok { OnOk result (spec.place_short self.old ≡ Ok self.new) }
        ensures err { IfErr result (λ e. spec.place_short self.old ≡ Err e) }
    {
        if !before_set(self.stage) {
            return Err(Misread::Bad);
        }
        self.stage = Stage::Set;
        self.set = Some(Vec::new(*self.entries.allocator()));
        Ok(())
    }

    fn place_last(&mut self) -> Result<(), Misread>
        ensures ok { OnOk result (spec.place_last self.old ≡ Ok self.new) }
        ensures err { IfErr result (λ e. spec.place_last self.old ≡ Err e) }
    {
        if !is_complete(self.stage) {
            return Err(Misread::Bad);
        }
        self.stage = Stage::Done;
        Ok(())
    }

    fn place_above_most(
        &mut self,
        settings: &Settings,
        name: &[u8],
        need: u32,
        most: u32,
    ) -> Result<(), Misread>
        ensures ok { OnOk result (spec.place settings.now self.old (lines.above_most name.now need most) ≡ Ok self.new) }
        ensures err { IfErr result (λ e. spec.place settings.now self.old (lines.above_most name.now need most) ≡ Err e) }
    {
        if !matches!(self.stage, Stage::Verdict) {
            return Err(Misread::Bad);
        }
        let Some(function) = settings.function_named(name) else {
            return Err(Misread::Unknown);
        };
        self.stage = Stage::Barred;
        self.kind = Kind::Never(Obstacle::AboveMost {
            function,
            need,
            most,
        });
        Ok(())
    }

    fn place_no_machine(
        &mut self,
        settings: &Settings,
        name: &[u8],
        need: u32,
    ) -> Result<(), Misread>
        ensures ok { OnOk result (spec.place settings.now self.old (lines.no_machine name.now need) ≡ Ok self.new) }
        ensures err { IfErr result (λ e. spec.place settings.now self.old (lines.no_machine name.now need) ≡ Err e) }
    {
        if !matches!(self.stage, Stage::Verdict) {
            return Err(Misread::Bad);
        }
        let Some(function) = settings.function_named(name) else {
            return Err(Misread::Unknown);
        };
        self.stage = Stage::Barred;
        self.kind = Kind::Never(Obstacle::NoMachine { function, need });
        Ok(())
    }

    fn place_on(&mut self, settings: &Settings, name: &[u8], many: u32) -> Result<(), Misread>
        ensures ok { OnOk result (spec.place_on settings.now name.now many self.old ≡ Ok self.new) }
        ensures err { IfErr result (λ e. e ≢ Misread.Memory → spec.place_on settings.now name.now many self.old ≡ Err e) }
    {
        if !matches!(self.stage, Stage::Added) {
            return Err(Misread::Bad);
        }
        settings.facts();
        let Some(machine) = settings.machine_named(name) else {
            return Err(Misread::Unknown);
        };
        let room = MAX_WORKERS - self.machines.len();
        if machine.number() < self.next_machine || many == 0 || many as usize > room {
            return Err(Misread::Bad);
        }
        self.machines
            .resize(self.machines.len() + many as usize, machine)?;
        self.next_machine = machine.number() + 1;
        Ok(())
    }

    fn place_function(
        &mut self,
        settings: &Settings,
        slot: SlotId,
        name: &[u8],
    ) -> Result<(), Misread>
        requires order { nat_lt slot self.old.next_slot ≡ false }
        requires few { slot < 8192 }
        ensures ok { OnOk result (spec.place_function settings.now name.now slot self.old ≡ Ok self.new) }
        ensures err { IfErr result (λ e. e ≢ Misread.Memory → spec.place_function settings.now name.now slot self.old ≡ Err e) }
    {
        let Some(function) = settings.function_named(name) else {
            return Err(Misread::Unknown);
        };
        self.entries.push((slot, Some(function)))?;
        self.stage = Stage::Tasks;
        self.next_slot = slot.number() + 1;
        Ok(())
    }

    fn place_task(
        &mut self,
        settings: &Settings,
        worker: &[u8],
        function: Option<&[u8]>,
    ) -> Result<(), Misread>
        ensures ok { OnOk result (spec.place_task settings.now worker.now (option_map (λ f. f.now) function.entry) self.old ≡ Ok self.new) }
        ensures err { IfErr result (λ e. e ≢ Misread.Memory
            → spec.place_task settings.now worker.now (option_map (λ f. f.now) function.entry) self.old ≡ Err e) }
    {
        let Some(name) = function else {
            return Err(Misread::Bad);
        };
        if !before_tasks(self.stage) {
            return Err(Misread::Bad);
        }
        let Some(slot) = grown_slot_named(settings, &self.machines, worker) else {
            return Err(Misread::Unknown);
        };
        if slot.number() < self.next_slot {
            return Err(Misread::Bad);
        }
        self.place_function(settings, slot, name)
    }

    fn place_needed(&mut self, settings: &Settings, name: &[u8]) -> Result<(), Misread>
        ensures ok { OnOk result (spec.place_needed settings.now name.now self.old ≡ Ok self.new) }
        ensures err { IfErr result (λ e. e ≢ Misread.Memory → spec.place_needed settings.now name.now self.old ≡ Err e) }
    {
        if !matches!(self.stage, Stage::Set) {
            return Err(Misread::Bad);
        }
        settings.facts();
        let Some(function) = settings.function_named(name) else {
            return Err(Misread::Unknown);
        };
        if function.number() < self.next_function {
            return Err(Misread::Bad);
        }
        if let Some(set) = &mut self.set {
            set.push(function)?;
        }
        self.next_function = function.number() + 1;
        Ok(())
    }

    /// Takes a line that a report has too.
    fn place_shared(&mut self, settings: &Settings, line: ReportLine<'_>) -> Result<(), Misread>
        ensures ok { OnOk result (spec.place_shared settings.now self.old (line_view line.entry) ≡ Ok self.new) }
        ensures err { IfErr result (λ e. e ≢ Misread.Memory → spec.place_shared settings.now self.old (line_view line.entry) ≡ Err e) }
    {
        match line {
            ReportLine::Task(worker, function) => self.place_task(settings, worker, function),
            ReportLine::Short => self.place_short(),
            ReportLine::Needed(name) => self.place_needed(settings, name),
            ReportLine::Last => self.place_last(),
            ReportLine::Head
            | ReportLine::Backlog(_)
            | ReportLine::NoPlan
            | ReportLine::Stranded(_) => Err(Misread::Bad),
        }
    }

    fn place(&mut self, settings: &Settings, line: Line<'_>) -> Result<(), Misread>
        ensures ok { OnOk result (spec.place settings.now self.old (size_line_view line.entry) ≡ Ok self.new) }
        ensures err { IfErr result (λ e. e ≢ Misread.Memory → spec.place settings.now self.old (size_line_view line.entry) ≡ Err e) }
    {
        match line {
            Line::Head => self.place_first(),
            Line::Level => self.place_level(),
            Line::Add => self.place_add(),
            Line::On(machine, many) => self.place_on(settings, machine, many),
            Line::AboveMost(name, need, most) => self.place_above_most(settings, name, need, most),
            Line::NoMachine(name, need) => self.place_no_machine(settings, name, need),
            Line::TooMany(many) => self.place_too_many(many),
            Line::Shared(line) => self.place_shared(settings, line),
        }
    }

    /// Takes one line.
    pub fn place_line(&mut self, settings: &Settings, line: &[u8]) -> Result<(), Misread>
        ensures ok { OnOk result (spec.place_line settings.now self.old line.now ≡ Ok self.new) }
        ensures err { IfErr result (λ e. e ≢ Misread.Memory → spec.place_line settings.now self.old line.now ≡ Err e) }
    {
        match read_size_line(line) {
            Some(line) => self.place(settings, line),
            None => Err(Misread::Bad),
        }
    }

    /// The size that was given.
    pub fn into_size(self) -> Size
        ensures { result ≡ spec.size_of self }
    {
        let Draft {
            stage: _,
            kind,
            machines,
            entries,
            set,
            next_machine: _,
            next_slot: _,
            next_function: _,
        } = self;
        let alloc = *entries.allocator();
        match kind {
            Kind::Enough => Size::Enough {
                added: Addition::of_rising(machines),
                plan: Plan::of_rising(entries),
                short: match set {
                    Some(set) => Some(FuncSet::of_rising(set)),
                    None => None,
                },
            },
            Kind::Never(obstacle) => Size::Never(obstacle),
            Kind::TooMany(added) => Size::TooMany {
                added,
                short: match set {
                    Some(set) => FuncSet::of_rising(set),
                    None => FuncSet::of_rising(Vec::new(alloc)),
                },
            },
        }
    }
}
