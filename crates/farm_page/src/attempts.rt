//! The last attempts.

ghost use Rattle.std.specs.Prelude.{◌≡◌, ◌++◌, [], ◌∷◌, IfOk, OnErr, OnOk};
ghost use Rattle.farm_page.specs.Kept.{last_of};

use crate::view::AttemptView;
use std::alloc::{AllocError, Global};
use std::collections::VecDeque;
use std::marker::Model;

/// How many attempts a page draws.
pub const DRAWN: usize = 600;

/// The last attempts, 600 at most, the oldest first.
#[derive(Drop)]
pub struct Attempts {
    each: VecDeque<AttemptView>,
}

impl Model for Attempts {
    ghost use Rattle.std.specs.Prelude.{List, length, ◌≤◌};
    ghost use Rattle.farm_page.specs.declared.view.AttemptView.{AttemptView};

    ghost Value = { List AttemptView };

    ghost view = { λ a. a.each.items };

    ghost invariant = { λ a. length a.each.items ≤ 600 };
}

impl Attempts {
    /// Those of a farm before its first attempt.
    pub fn new(alloc: Global) -> Attempts
        ensures { result ≡ [] }
    {
        Attempts {
            each: VecDeque::new(alloc),
        }
    }

    /// Adds one more, and forgets the oldest if there are too many. The only error is out of memory; then nothing is added.
    pub fn add(&mut self, attempt: AttemptView) -> Result<(), AllocError>
        ensures ok { OnOk result (self.new ≡ last_of 600 (self.old ++ attempt ∷ [])) }
        ensures err { OnErr result (self.new ≡ self.old) }
    {
        self.each.push_back(attempt)?;
        if self.each.len() > DRAWN {
            let _oldest = self.each.pop_front();
        }
        Ok(())
    }

    /// The same attempts again. The only error is out of memory.
    pub fn copy(&self) -> Result<Attempts, AllocError>
        ensures { IfOk result (λ attempts. attempts ≡ self.now) }
    {
        let each = self.each.clone()?;
        Ok(Attempts { each })
    }

    /// The attempts, the oldest first.
    pub fn each(&self) -> &VecDeque<AttemptView>
        ensures { result.now.items ≡ self.now }
    {
        &self.each
    }
}
