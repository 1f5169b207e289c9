//! What the lines of a report have said so far.

ghost use Rattle.std.specs.Prelude.{◌≡◌, ◌≢◌, [], OnOk, IfErr, IfOk, Ok, Err, Some, false, nat_lt, ◌<◌};
ghost use Rattle.pool_report.specs.Reading as spec;
ghost use Rattle.pool_report.specs.Told.{line_view};
ghost use Rattle.std.specs.Prelude.{option_map};

use crate::line::{Line, read_line};
use crate::stage::{Misread, Stage};
use plan_model::{Answer, FuncId, FuncSet, Plan, SlotId};
use pool_settings::Settings;
use std::alloc::Global;
use std::marker::Model;

/// What the lines of a report have said so far.
#[derive(Drop)]
pub struct Draft {
    stage: Stage,
    backlog: Option<u64>,
    entries: Vec<(SlotId, Option<FuncId>)>,
    set: Option<Vec<FuncId>>,
    next_slot: u32,
    next_function: u32,
    next_stranded: u32,
}

impl Model for Draft {
    ghost use Rattle.std.specs.Prelude.{option_map};
    ghost use Rattle.pool_report.specs.Reading.{Draft as Value_};
    ghost use Rattle.pool_report.specs.Drafts.{IsDraft};

    ghost Value = { Value_ };

    ghost view = { λ d. record {
      stage = d.stage;
      backlog = d.backlog;
      entries = d.entries.items;
      set = option_map (λ s. s.items) d.set;
      next_slot = d.next_slot;
      next_function = d.next_function;
      next_stranded = d.next_stranded;
    } };

    ghost invariant = { λ d. IsDraft (record {
      stage = d.stage;
      backlog = d.backlog;
      entries = d.entries.items;
      set = option_map (λ s. s.items) d.set;
      next_slot = d.next_slot;
      next_function = d.next_function;
      next_stranded = d.next_stranded;
    }) };
}

fn is_complete(stage: Stage) -> bool
    ensures { result ≡ spec.is_complete stage }
{
    match stage {
        Stage::Tasks | Stage::Set | Stage::Leftovers => true,
        _ => false,
    }
}

fn before_set(stage: Stage) -> bool
    ensures { result ≡ spec.before_set stage }
{
    match stage {
        Stage::Tasks | Stage::Bare => true,
        _ => false,
    }
}

impl Draft {
    pub fn new(alloc: Global) -> Draft
        ensures { result ≡ spec.start }
    {
        Draft {
            stage: Stage::Start,
            backlog: None,
            entries: Vec::new(alloc),
            set: None,
            next_slot: 0,
            next_function: 0,
            next_stranded: 0,
        }
    }

    pub fn is_done(&self) -> bool
        ensures { result ≡ spec.is_done self.now.stage }
    {
        matches!(self.stage, Stage::Done)
    }

    fn place_head(&mut self) -> Result<(), Misread>
        ensures ok { OnOk result (spec.in_place (spec.is_start self.old.stage) (Ok (spec.moved Stage.Verdict self.old)) ≡ Ok self.new) }
        ensures err { IfErr result (λ e. spec.in_place (spec.is_start self.old.stage) (Ok (spec.moved Stage.Verdict self.old)) ≡ Err e) }
    {
        if !matches!(self.stage, Stage::Start) {
            return Err(Misread::Bad);
        }
        self.stage = Stage::Verdict;
        Ok(())
    }

    fn place_backlog(&mut self, backlog: u64) -> Result<(), Misread>
        ensures ok { OnOk result (spec.in_place (spec.at_verdict self.old.stage) (Ok (spec.with_backlog backlog self.old)) ≡ Ok self.new) }
        ensures err { IfErr result (λ e. spec.in_place (spec.at_verdict self.old.stage) (Ok (spec.with_backlog backlog self.old)) ≡ Err e) }
    {
        if !matches!(self.stage, Stage::Verdict) {
            return Err(Misread::Bad);
        }
        self.stage = Stage::Tasks;
        self.backlog = Some(backlog);
        Ok(())
    }

    fn place_no_plan(&mut self) -> Result<(), Misread>
        ensures ok { OnOk result (spec.in_place (spec.at_verdict self.old.stage) (Ok (spec.moved Stage.Bare self.old)) ≡ Ok self.new) }
        ensures err { IfErr result (λ e. spec.in_place (spec.at_verdict self.old.stage) (Ok (spec.moved Stage.Bare self.old)) ≡ Err e) }
    {
        if !matches!(self.stage, Stage::Verdict) {
            return Err(Misread::Bad);
        }
        self.stage = Stage::Bare;
        Ok(())
    }

    fn place_short(&mut self) -> Result<(), Misread>
        ensures ok { OnOk result (spec.in_place (spec.before_set self.old.stage) (Ok (spec.with_set self.old)) ≡ Ok self.new) }
        ensures err { IfErr result (λ e. spec.in_place (spec.before_set self.old.stage) (Ok (spec.with_set self.old)) ≡ Err e) }
    {
        if !before_set(self.stage) {
            return Err(Misread::Bad);
        }
        self.stage = Stage::Set;
        self.set = Some(Vec::new(*self.entries.allocator()));
        Ok(())
    }

    fn place_last(&mut self) -> Result<(), Misread>
        ensures ok { OnOk result (spec.in_place (spec.is_complete self.old.stage) (Ok (spec.moved Stage.Done self.old)) ≡ Ok self.new) }
        ensures err { IfErr result (λ e. spec.in_place (spec.is_complete self.old.stage) (Ok (spec.moved Stage.Done self.old)) ≡ Err e) }
    {
        if !is_complete(self.stage) {
            return Err(Misread::Bad);
        }
        self.stage = Stage::Done;
        Ok(())
    }

    fn place_function(
        &mut self,
        settings: &Settings,
        slot: SlotId,
        function: Option<&[u8]>,
    ) -> Result<(), Misread>
        requires order { nat_lt slot self.old.next_slot ≡ false }
        requires few { slot < 4096 }
        ensures ok { OnOk result (spec.place_function settings.now slot (option_map (λ f. f.now) function.entry) self.old ≡ Ok self.new) }
        ensures err { IfErr result (λ e. e ≢ Misread.Memory
            → spec.place_function settings.now slot (option_map (λ f. f.now) function.entry) self.old ≡ Err e) }
    {
        let function = match function {
            Some(name) => match settings.function_named(name) {
                Some(function) => Some(function),
                None => return Err(Misread::Unknown),
            },
            None => None,
        };
        self.entries.push((slot, function))?;
        self.next_slot = slot.number() + 1;
        Ok(())
    }

    fn place_task(
        &mut self,
        settings: &Settings,
        worker: &[u8],
        function: Option<&[u8]>,
    ) -> Result<(), Misread>
        ensures ok { OnOk result (spec.place_task settings.now worker.now (option_map (λ f. f.now) function.entry) self.old ≡ Ok self.new) }
        ensures err { IfErr result (λ e. e ≢ Misread.Memory
            → spec.place_task settings.now worker.now (option_map (λ f. f.now) function.entry) self.old ≡ Err e) }
    {
        if !matches!(self.stage, Stage::Tasks) {
            return Err(Misread::Bad);
        }
        let Some(slot) = settings.slot_named(worker) else {
            return Err(Misread::Unknown);
        };
        if slot.number() < self.next_slot {
            return Err(Misread::Bad);
        }
        self.place_function(settings, slot, function)
    }

    fn place_needed(&mut self, settings: &Settings, name: &[u8]) -> Result<(), Misread>
        ensures ok { OnOk result (spec.place_needed settings.now name.now self.old ≡ Ok self.new) }
        ensures err { IfErr result (λ e. e ≢ Misread.Memory → spec.place_needed settings.now name.now self.old ≡ Err e) }
    {
        if !matches!(self.stage, Stage::Set) {
            return Err(Misread::Bad);
        }
        settings.facts();
        let Some(function) = settings.function_named(name) else {
            return Err(Misread::Unknown);
        };
        if function.number() < self.next_function {
            return Err(Misread::Bad);
        }
        if let Some(set) = &mut self.set {
            set.push(function)?;
        }
        self.next_function = function.number() + 1;
        Ok(())
    }

    fn place_stranded(&mut self, settings: &Settings, name: &[u8]) -> Result<(), Misread>
        ensures ok { OnOk result (spec.place_stranded settings.now name.now self.old ≡ Ok self.new) }
        ensures err { IfErr result (λ e. spec.place_stranded settings.now name.now self.old ≡ Err e) }
    {
        if !is_complete(self.stage) {
            return Err(Misread::Bad);
        }
        settings.facts();
        let Some(function) = settings.function_named(name) else {
            return Err(Misread::Unknown);
        };
        if function.number() < self.next_stranded {
            return Err(Misread::Bad);
        }
        self.stage = Stage::Leftovers;
        self.next_stranded = function.number() + 1;
        Ok(())
    }

    fn place(&mut self, settings: &Settings, line: Line<'_>) -> Result<(), Misread>
        ensures ok { OnOk result (spec.place settings.now self.old (line_view line.entry) ≡ Ok self.new) }
        ensures err { IfErr result (λ e. e ≢ Misread.Memory → spec.place settings.now self.old (line_view line.entry) ≡ Err e) }
    {
        match line {
            Line::Head => self.place_head(),
            Line::Backlog(backlog) => self.place_backlog(backlog),
            Line::NoPlan => self.place_no_plan(),
            Line::Task(worker, function) => self.place_task(settings, worker, function),
            Line::Short => self.place_short(),
            Line::Needed(name) => self.place_needed(settings, name),
            Line::Stranded(name) => self.place_stranded(settings, name),
            Line::Last => self.place_last(),
        }
    }

    /// Takes one line.
    pub fn place_line(&mut self, settings: &Settings, line: &[u8]) -> Result<(), Misread>
        ensures ok { OnOk result (spec.place_line settings.now self.old line.now ≡ Ok self.new) }
        ensures err { IfErr result (λ e. e ≢ Misread.Memory → spec.place_line settings.now self.old line.now ≡ Err e) }
    {
        match read_line(line) {
            Some(line) => self.place(settings, line),
            None => Err(Misread::Bad),
        }
    }

    /// The answer that was given.
    pub fn into_answer(self) -> Answer
        ensures { result ≡ spec.answer_of self }
    {
        let Draft {
            stage: _,
            backlog,
            entries,
            set,
            next_slot: _,
            next_function: _,
            next_stranded: _,
        } = self;
        let alloc = *entries.allocator();
        let plan = Plan::of_rising(entries);
        match backlog {
            Some(backlog) => Answer::Planned {
                plan,
                backlog,
                short: match set {
                    Some(set) => Some(FuncSet::of_rising(set)),
                    None => None,
                },
            },
            None => Answer::NoPlan {
                short: match set {
                    Some(set) => FuncSet::of_rising(set),
                    None => FuncSet::of_rising(Vec::new(alloc)),
                },
            },
        }
    }
}
