//! A plan that leaves out least numbers, kept from round to round.

ghost use Rattle.std.specs.Prelude.{◌≡◌, IfOk};
ghost use Rattle.farm_notes.specs.Relaxed as spec;
ghost use Rattle.pool_report.specs.Answered.{report_text};
ghost use Rattle.pool_supervisor.specs.Steps.{IsLetOffOf};

use crate::found::workers_by_function;
use crate::relaxed_settings::settings_text;
use farm_page::RelaxedPlan;
use plan_model::{Answer, FuncSet, Input};
use pool_report::report_text;
use pool_settings::Settings;
use relaxed_plan::Relaxed;
use std::alloc::{AllocError, Global};
use std::marker::Model;

/// A plan that leaves out least numbers, of some round. Of what a lock guards only the type is known, so the type says that its report is
/// of a plan that is shown.
#[derive(Drop)]
pub struct KeptRelaxed {
    plan: RelaxedPlan,
    workers: Vec<u32>,
}

impl Model for KeptRelaxed {
    ghost use Rattle.farm_notes.specs.Relaxed.{IsRelaxedReport};
    ghost use Rattle.farm_page.specs.declared.view.RelaxedPlan.{RelaxedPlan};

    ghost Value = { RelaxedPlan };

    ghost view = { λ kept. kept.plan };

    ghost invariant = { λ kept. IsRelaxedReport kept.plan.report.items };
}

/// The names of these functions.
fn names_of(alloc: Global, settings: &Settings, set: &FuncSet) -> Result<Vec<String>, AllocError> {
    let mut names = Vec::new(alloc);
    for function in set.functions() {
        names.push(String::from_str(alloc, settings.function_name(*function))?)?;
    }
    Ok(names)
}

/// How many workers the answer's plan gives each function of the input, and nothing if it is none.
fn workers_of(alloc: Global, input: &Input, answer: &Answer) -> Result<Vec<u32>, AllocError> {
    match answer {
        Answer::Planned { plan, .. } => workers_by_function(alloc, plan, input.functions()),
        Answer::NoPlan { .. } => Ok(Vec::new(alloc)),
    }
}

/// The report of the plan.
fn report_of(alloc: Global, settings: &Settings, relaxed: &Relaxed) -> Result<Vec<u8>, AllocError>
    requires of_these { IsLetOffOf settings.now relaxed.now.let_off relaxed.now.certified.input }
    ensures { IfOk result (λ text. text.items ≡ report_text settings.now relaxed.now.certified.input relaxed.now.certified.answer) }
{
    let certified = &relaxed.certified;
    let text = report_text(alloc, settings, certified.input(), certified.answer())?;
    Ok(text.into_bytes())
}

impl KeptRelaxed {
    /// This plan. The only error is out of memory.
    pub fn of(
        alloc: Global,
        settings: &Settings,
        relaxed: &Relaxed,
    ) -> Result<KeptRelaxed, AllocError>
        requires of_these { IsLetOffOf settings.now relaxed.now.let_off relaxed.now.certified.input }
        ensures { IfOk result (λ kept. kept.report.items
            ≡ report_text settings.now relaxed.now.certified.input relaxed.now.certified.answer) }
    {
        let input = relaxed.certified.input();
        let report = report_of(alloc, settings, relaxed)?;
        Ok(KeptRelaxed {
            plan: RelaxedPlan {
                let_off: names_of(alloc, settings, &relaxed.let_off)?,
                settings: settings_text(alloc, settings, input)?,
                report,
            },
            workers: workers_of(alloc, input, relaxed.certified.answer())?,
        })
    }

    /// By function, how many workers the plan gives it.
    pub fn workers(&self) -> &[u32] {
        &self.workers
    }

    /// The same plan again, to be shown. The only error is out of memory.
    pub fn copy(&self, alloc: Global) -> Result<RelaxedPlan, AllocError>
        ensures { IfOk result (λ plan. spec.IsRelaxedReport plan.report.items) }
    {
        let plan = &self.plan;
        Ok(RelaxedPlan {
            let_off: plan.let_off.clone()?,
            settings: Vec::from_slice(alloc, &plan.settings)?,
            report: Vec::from_slice(alloc, &plan.report)?,
        })
    }
}
