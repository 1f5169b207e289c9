//! What a holder of the rounds knows, and the rule over what all of them know.

use atomic_table::{Join, Split};
use crossbeam_utils::atomic::seq_cell::{Pass, RuledSeqCell};
use crossbeam_utils::rule::{Outcome, Protocol};
use pool_core::Ran;
use std::collections::LinkedList;
use std::marker::{Brand, PhantomData};

/// What a pass knows: the rounds that it keeps, and those that it tells. No value of it is made.
pub struct View {
    pub keeps: bool,
    pub kept: LinkedList<Ran>,
    pub tells: bool,
    pub told: LinkedList<Ran>,
}

/// What is kept is what is told.
pub struct Agreed;

impl Protocol<[u64; 1], View> for Agreed {
    ghost use Rattle.std.specs.Prelude.{[]};
    ghost use Rattle.agreed_rounds.specs.Agreed.{Agree, alone};

    ghost holds = { Agree };

    ghost first = { alone [] };
}

/// A look at what is kept and told.
pub struct Finds;

impl Outcome<[u64; 1], View> for Finds {
    ghost use Rattle.agreed_rounds.specs.Agreed as spec;

    ghost then = { spec.Finds };
}

/// What one round came to. The call that adds it picks it.
pub trait AddedRound {
    ghost use Rattle.pool_core.specs.declared.answer.Ran.{Ran};

    ghost ran: { Ran };
}

impl AddedRound for Brand {
    ghost use Rattle.agreed_rounds.specs.Agreed.{no_round};

    ghost ran = { no_round };
}

/// One round more.
pub struct Adds<Y> {
    of: PhantomData<Y>,
}

impl<Y: AddedRound> Outcome<[u64; 1], View> for Adds<Y> {
    ghost use Rattle.agreed_rounds.specs.Agreed as spec;

    ghost then = { spec.Adds Y.ran };
}

/// A pass beside one that knows nothing.
pub struct Spare;

impl Split<View> for Spare {
    ghost use Rattle.agreed_rounds.specs.Agreed.{nobody};

    ghost left = { λ view. view };

    ghost right = { λ _. nobody };
}

/// One pass that keeps, and one that tells.
pub struct Parts;

impl Split<View> for Parts {
    ghost use Rattle.agreed_rounds.specs.Agreed.{without_telling, without_keeping};

    ghost left = { without_telling };

    ghost right = { without_keeping };
}

impl Join<View> for Parts {
    ghost use Rattle.agreed_rounds.specs.Agreed.{both, nobody};

    ghost both = { both };

    ghost spent = { nobody };
}

/// What the passes speak of. Its word is 0: all that it is for is the rule.
pub type Cell = RuledSeqCell<[u64; 1], View, Agreed, 1>;

/// A pass of it.
pub type Known = Pass<[u64; 1], View>;
