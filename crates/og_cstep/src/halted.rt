//! Whether a run can go on.
ghost use Rattle.std.specs.Prelude.{◌≡◌};
ghost use Rattle.og_cstep.specs.Halted.{stuck_rule};
ghost use Rattle.og_cstep.specs.Machines.{run_of};

use crate::Machine;
use og_cstatement::Standing;
use og_model::StuckRule;

impl Machine {
    /// Why the program cannot go on, none where it can. A stimulus whose function is not there leaves it so at once.
    pub fn stuck(&self) -> Option<StuckRule>
        ensures { result ≡ stuck_rule (run_of self.now).config }
    {
        match self.position.standing {
            Standing::Stuck(rule) => Some(rule),
            _ => None,
        }
    }
}
