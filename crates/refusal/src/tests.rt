//! An enum of refusals, reported through its bound.
ghost use Rattle.std.specs.Prelude.{◌≡◌};
ghost use Rattle.refusal.specs.Label.{Label};

use super::*;

#[derive(Drop)]
enum Closed {
    Locked,
    Memory,
}

impl Labelled for Closed {
    ghost use Rattle.std.specs.Prelude.{codes};
    ghost use Rattle.refusal.specs.Label.{label as encoded};
    ghost use Rattle.refusal.specs.declared.tests.Closed.TheVariants.{Locked, Memory};

    ghost label = { elim [ Locked ↦ encoded 1 (codes "Locked") | Memory ↦ encoded 2 (codes "Memory") ] };

    fn label(&self) -> Label {
        match self {
            Closed::Locked => Label::new(1, "Locked"),
            Closed::Memory => Label::new(2, "Memory"),
        }
    }
}

fn number_of<R: Labelled>(refusal: &R) -> u32
    ensures { result ≡ (R.label refusal.now).number }
{
    refusal.label().number()
}

#[test]
fn numbers_and_names(rt: HostRuntime) {
    assert_eq!(rt; number_of(&Closed::Locked), 1);
    assert_eq!(rt; number_of(&Closed::Memory), 2);
    assert_eq!(rt; Closed::Locked.label().name(), "Locked");
    assert_eq!(rt; Closed::Memory.label().name(), "Memory");
}
