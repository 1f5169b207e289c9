//! Why no addition serves, as far as one function shows it.

ghost use Rattle.std.specs.Prelude.{◌≡◌, ◌<◌, length};
ghost use Rattle.plan_sizing.specs.Sizing.{first_obstacle, is_known_to, obstacle_at};

use crate::farm::Farm;
use crate::size::Obstacle;
use plan_model::{FuncId, Input, MachineId};

/// What the lowest function shows that shows that no addition serves: it needs more workers than its greatest number, or else it needs
/// workers and no machine may do it. None if no function shows it: then some addition serves, if not within 4,096 workers.
pub fn first_obstacle(farm: &Farm) -> Option<Obstacle>
    ensures { result ≡ first_obstacle farm.now }
{
    for number in 0..farm.input().functions() as u32 {
        let obstacle = obstacle_at(farm, FuncId::new(number));
        if obstacle.is_some() {
            return obstacle;
        }
    }
    None
}

fn obstacle_at(farm: &Farm, function: FuncId) -> Option<Obstacle>
    requires { function < length farm.now.problem.least }
    ensures { result ≡ obstacle_at farm.now function }
{
    farm.facts();
    let need = farm.need(function);
    let most = farm.input().most()[function.number() as usize];
    if most < need {
        return Some(Obstacle::AboveMost {
            function,
            need,
            most,
        });
    }
    if need > 0 && !is_known_to(farm.input(), function) {
        return Some(Obstacle::NoMachine { function, need });
    }
    None
}

/// Whether some machine may do the function, with workers or without.
fn is_known_to(input: &Input, function: FuncId) -> bool
    ensures { result ≡ is_known_to input.now function }
{
    input.facts();
    (0..input.machines() as u32).any(|machine| input.may(MachineId::new(machine), function))
}
