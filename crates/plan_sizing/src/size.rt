//! Sizes with what shows them, and what may be wrong with them.

ghost use Rattle.std.specs.Prelude.{◌≡◌, ◌↔◌, IfOk, IsOk, IsTrue, List, ℕ, length};
ghost use Rattle.std.specs.List.Sorted.{IsNonDecreasing};

use plan_model::{FuncId, FuncSet, MachineId, Plan};
use refusal::{Label, Labelled};
use std::marker::Model;
use thiserror::Error;

/// The machines of an addition fall.
#[derive(Clone, Copy, Debug, PartialEq, Eq, Error)]
#[error("the machines fall")]
pub struct MachineOrder;

/// Workers that are added to a farm, each given by its machine, those of lower machines first. Contracts see the list of machines.
///
/// The first of them has the slot after the farm's last worker, which is [`Farm::slots`](crate::Farm::slots), and each other the next
/// one. The workers of one machine lie side by side, so the first of them is the next worker of its machine.
#[derive(Debug, Drop)]
pub struct Addition {
    machines: Vec<MachineId>,
}

impl Model for Addition {
    ghost use Rattle.std.specs.Prelude.{ℕ, List};
    ghost use Rattle.std.specs.List.Sorted.{IsNonDecreasing};

    ghost Value = { List ℕ };

    ghost view = { λ a. a.machines.items };

    ghost invariant = { λ a. IsNonDecreasing a.machines.items };
}

impl Addition {
    /// Takes the machines as they are, and refuses those that fall.
    pub fn new(machines: Vec<MachineId>) -> Result<Addition, MachineOrder>
        ensures ok { IfOk result (λ addition. addition ≡ machines.items) }
        ensures exact { IsOk result ↔ IsNonDecreasing machines.items }
    {
        if !machines_rise(&machines) {
            return Err(MachineOrder);
        }
        Ok(Addition { machines })
    }

    /// The addition of machines that are known not to fall, so no test runs.
    pub fn of_rising(machines: Vec<MachineId>) -> Addition
        requires { IsNonDecreasing machines.items }
        ensures { result ≡ machines.items }
    {
        Addition { machines }
    }

    /// The machine of each added worker.
    pub fn machines(&self) -> &[MachineId]
        ensures all { result.now ≡ self.now }
        ensures rising { IsNonDecreasing self.now }
    {
        &self.machines
    }
}

fn machines_rise(machines: &[MachineId]) -> bool
    ensures { IsTrue result ↔ IsNonDecreasing machines.now }
{
    machines.is_sorted_by(|one, next| one <= next)
}

/// Why no addition serves, however many workers it has, as one function shows it.
#[derive(Clone, Copy, Debug, PartialEq, Eq)]
pub enum Obstacle {
    /// The function needs more workers than its greatest number.
    AboveMost {
        /// The function.
        function: FuncId,
        /// How many workers it needs.
        need: u32,
        /// Its greatest number of workers.
        most: u32,
    },
    /// The function needs workers, and no machine may do it, with workers or without.
    NoMachine {
        /// The function.
        function: FuncId,
        /// How many workers it needs.
        need: u32,
    },
}

/// A size that is no addition has these numbers: 3 is left for [`Size::TooMany`].
impl Labelled for Obstacle {
    ghost use Rattle.plan_sizing.specs.Flaws.{obstacle_label};

    ghost label = { obstacle_label };

    fn label(&self) -> Label {
        match self {
            Obstacle::AboveMost { .. } => Label::new(1, "AboveMost"),
            Obstacle::NoMachine { .. } => Label::new(2, "NoMachine"),
        }
    }
}

/// How many workers a farm is short of, with what shows it.
#[derive(Debug, Drop)]
pub enum Size {
    /// These workers have to be added, and no smaller addition serves.
    Enough {
        /// The workers that are added.
        added: Addition,
        /// A plan of the farm that has grown: which worker serves which function, the added ones by their new slots. Workers that it does
        /// not list have no function.
        plan: Plan,
        /// Functions whose needs are so many more than the workers that may do any of them; none if nobody is added.
        short: Option<FuncSet>,
    },
    /// No addition serves, as this function shows, the lowest that shows it.
    Never(Obstacle),
    /// Each addition that serves has so many workers at least, and with the farm's own these are more than 4,096.
    TooMany {
        /// How many workers have to be added.
        added: u64,
        /// Functions whose needs are so many more than the workers that may do any of them.
        short: FuncSet,
    },
}

/// What is wrong with a size, in the order in which [`check_size`](crate::check_size) looks.
#[derive(Clone, Copy, Debug, PartialEq, Eq, Error)]
pub enum Flaw {
    /// The workers of the farm and the added ones are more than 4,096; or they are not, beside [`Size::TooMany`].
    #[error("the limit of 4,096 workers is not kept, or not passed")]
    WrongLimit,
    /// The machine of an added worker is not there, a listed slot is that of no live and no added worker, or its machine may not do the
    /// function.
    #[error("a worker or its machine is not there, or the machine may not do the function")]
    NotPermitted,
    /// A function has fewer workers than it needs.
    #[error("a function has fewer workers than it needs")]
    BelowNeed,
    /// A function has more workers than its greatest number.
    #[error("a function has more workers than its greatest number")]
    AboveMost,
    /// The set is not short by just so many workers, holds a number that is no function, or is beside an addition of nobody.
    #[error("the set is not short by just so many workers")]
    NotShort,
    /// Workers are added, and no set shows that fewer will not do.
    #[error("no set shows that the addition is least")]
    SetMissing,
    /// This function does not show that no addition serves, or a lower one shows it too; or some function shows it, beside
    /// [`Size::TooMany`]. Its number is 8: 7 is left for a text that is not the one of its size.
    #[error("another function is the first to show that no addition serves, or none is")]
    WrongObstacle,
}

/// The numbers rise in the order in which [`check_size`](crate::check_size) looks; 7 is left out.
impl Labelled for Flaw {
    ghost use Rattle.plan_sizing.specs.Flaws.{flaw_label};

    ghost label = { flaw_label };

    fn label(&self) -> Label {
        match self {
            Flaw::WrongLimit => Label::new(1, "WrongLimit"),
            Flaw::NotPermitted => Label::new(2, "NotPermitted"),
            Flaw::BelowNeed => Label::new(3, "BelowNeed"),
            Flaw::AboveMost => Label::new(4, "AboveMost"),
            Flaw::NotShort => Label::new(5, "NotShort"),
            Flaw::SetMissing => Label::new(6, "SetMissing"),
            Flaw::WrongObstacle => Label::new(8, "WrongObstacle"),
        }
    }
}
