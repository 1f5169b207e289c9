//! Labels, and what has one.
ghost use Rattle.std.specs.Prelude.{◌≡◌};
ghost use Rattle.refusal.specs.Label.{Label};

use std::marker::Model;

/// The number and the name by which lines of output give a refusal. Clauses see it as the two.
#[derive(Drop)]
pub struct Label {
    number: u32,
    name: &'static str,
}

impl Model for Label {
    ghost use Rattle.refusal.specs.Label.{Label};

    ghost Value = { Label };

    ghost view = { λ l. record { number = l.number; name = l.name.now } };
}

impl Label {
    /// The label of this number and this name.
    pub fn new(number: u32, name: &'static str) -> Label
        ensures { result ≡ record { number = number; name = name.now } }
    {
        Label { number, name }
    }

    /// The number: the place of the refusal in the order in which its call looks, from 1.
    pub fn number(&self) -> u32
        ensures { result ≡ self.now.number }
    {
        self.number
    }

    /// The name: that of the variant.
    pub fn name(&self) -> &'static str
        ensures { result.now ≡ self.now.name }
    {
        self.name
    }
}

/// What has a label: an enum whose variants are in lines of output.
pub trait Labelled {
    /// The label of a value.
    ghost label: { Self → Label };

    /// The number and the name of this value.
    fn label(&self) -> Label
        ensures { result ≡ label self.now };
}
