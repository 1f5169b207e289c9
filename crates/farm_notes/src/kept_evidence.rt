//! Evidence that is kept from round to round.

ghost use Rattle.std.specs.Prelude.{◌≡◌, IfOk};
ghost use Rattle.farm_notes.specs.Evidence as spec;
ghost use Rattle.pool_supervisor.specs.Steps.{IsMadeOf};

use crate::evidence::evidence_of;
use farm_page::Evidence;
use plan_model::Certified;
use pool_settings::Settings;
use std::alloc::{AllocError, Global};
use std::marker::Model;

/// The evidence of the answer of some round. Of what a lock guards only the type is known, so the type says this.
#[derive(Drop)]
pub struct KeptEvidence {
    evidence: Evidence,
}

impl Model for KeptEvidence {
    ghost use Rattle.farm_notes.specs.Evidence.{IsOfAShownAnswer};
    ghost use Rattle.farm_page.specs.declared.view.Evidence.{Evidence};

    ghost Value = { Evidence };

    ghost view = { λ kept. kept.evidence };

    ghost invariant = { λ kept. IsOfAShownAnswer kept.evidence };
}

impl KeptEvidence {
    /// That of this answer. Its attempt has the number 0 until it is known. The only error is out of memory.
    pub fn of(
        alloc: Global,
        settings: &Settings,
        certified: &Certified,
    ) -> Result<KeptEvidence, AllocError>
        requires of_these { IsMadeOf settings.now certified.now.input }
        ensures { IfOk result (spec.IsEvidenceOf settings.now certified.now) }
    {
        certified.input();
        let evidence = evidence_of(alloc, settings, certified)?;
        Ok(KeptEvidence { evidence })
    }

    /// The same, as that of an attempt of this number.
    pub fn numbered(self, attempt: u32) -> KeptEvidence
        ensures { result ≡ record self { attempt = attempt } }
    {
        let KeptEvidence { evidence } = self;
        KeptEvidence {
            evidence: Evidence {
                attempt,
                report: evidence.report,
                status: evidence.status,
                lost: evidence.lost,
            },
        }
    }

    /// The number of its attempt.
    pub fn attempt(&self) -> u32
        ensures { result ≡ self.now.attempt }
    {
        self.evidence.attempt
    }

    /// The same again, to be shown. The only error is out of memory.
    pub fn copy(&self, alloc: Global) -> Result<Evidence, AllocError>
        ensures same { IfOk result (spec.IsSameEvidence self.now) }
        ensures answers { IfOk result spec.IsOfAShownAnswer }
    {
        let evidence = &self.evidence;
        Ok(Evidence {
            attempt: evidence.attempt,
            report: Vec::from_slice(alloc, &evidence.report)?,
            status: Vec::from_slice(alloc, &evidence.status)?,
            lost: evidence.lost.clone()?,
        })
    }
}
