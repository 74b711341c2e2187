//! What holds of the meaning of every model, whatever its tree. Each function does nothing, and its contract is the law.
ghost use Rattle.std.specs.Prelude.{◌≡◌};
ghost use Rattle.og_model.specs.declared.Scope.{Scope, out-Scope};
ghost use Rattle.og_model.specs.Regions.{insides_of, states_insides};
ghost use Rattle.og_model.specs.Laws.{FuelIsFree, UnitsNeverGrow, MoreUnitsGoOn, EnoughUnitsAreEnough, EachIsAnswered, StoppedForGood, WorthIsByParts, TailsAreByParts};

/// The fuel by which the meaning recurses changes nothing once it covers the units.
#[tactic(auto, using(crate::proofs::RunLaws::fuel_is_free))]
pub fn fuel_is_free()
    ensures { FuelIsFree }
{}

/// Nothing that is done leaves more units behind than it was given.
#[tactic(auto, using(crate::proofs::RunLaws::units_never_grow))]
pub fn units_never_grow()
    ensures { UnitsNeverGrow }
{}

/// A run with more units begins with what a run with fewer shows; where the shorter one ran out, the longer one shows the
/// same events there and maybe more.
pub fn more_units_go_on()
    ensures { MoreUnitsGoOn }
{}

/// A run that did not run out of units is the same with more of them.
pub fn enough_units_are_enough()
    ensures { EnoughUnitsAreEnough }
{}

/// There is an entry for the start and one for each stimulus, and nothing follows a fault or a want of units.
pub fn each_is_answered()
    ensures { EachIsAnswered }
{}

/// After STOP each stimulus shows no event and the variables as they are.
pub fn stopped_for_good()
    ensures { StoppedForGood }
{}

/// The worth of an expression and the end of a target go by their parts, whatever the depth of the tree.
pub fn worth_is_by_parts()
    ensures { WorthIsByParts }
{}

/// So does what stands behind a label.
pub fn tails_are_by_parts()
    ensures { TailsAreByParts }
{}

/// A scope has the leaves and regions of its states, one after the other.
pub fn scopes_have_what_their_states_have()
    ensures { (m : Scope) → insides_of m ≡ states_insides insides_of (out-Scope m).states }
{}
