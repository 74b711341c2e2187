//! The forms of the meaning that are hardest to follow: a call, the entering of partitions of which one fails, and continuous
//! signals that fire again. No code is made for them yet.

ghost use Rattle.std.specs.Prelude.{◌≡◌, ℕ, List, [], ◌∷◌, ⊤, Option, Some, Result, Ok, Err};
ghost use Rattle.og_base.specs.declared.Place.{Place};
ghost use Rattle.og_model.specs.declared.Arg.{Arg};
ghost use Rattle.og_model.specs.declared.FaultKind.{FaultKind};
ghost use Rattle.og_model.specs.declared.Model.{Model as Process};
ghost use Rattle.og_model.specs.declared.Partition.{Partition};
ghost use Rattle.og_model.specs.declared.Proc.{Proc};
ghost use Rattle.og_model.specs.declared.VarId.{VarId};
ghost use Rattle.og_model.specs.declared.Action.TheOpen.{Call};
ghost use Rattle.og_types.specs.declared.Value.{Value};
ghost use Rattle.og_model.specs.Expressions as values;
ghost use Rattle.og_model.specs.Units.{State, Done, Fault, then_do};
ghost use Rattle.og_model.specs.Actions.{Setting, Remainder, Going, Ended, called, called_with, formals_of, passed_to, receiving, act_on, run};
ghost use Rattle.og_model.specs.Configuration.{Active, Parts};
ghost use Rattle.og_model.specs.Moving.{Arrival, Entering, enter_parts};
ghost use Rattle.og_model.specs.Settling.{Continuous, settle};
ghost use Rattle.og_ir.specs.Steps.{Config};
ghost use Rattle.og_follow.specs.Passing.{Passed};
ghost use Rattle.og_follow.specs.Carrying.{Code, in_state, CarriesOut, CanFollow, behind, one_then, Test, told, Leads, led, listed, Routes, ways, Always};
ghost use Rattle.og_follow.specs.Trials.{CarriesCall, CallsItself, EntersOne, EntersPartitions, FailsInLast, testing, Settles};

/// The body of a procedure is carried out with variables of its own, up to its return; the action evaluates its arguments
/// first, and a fault of them has its place. A procedure may call itself, as deep as there are units.
pub fn calls_are_followed()
    ensures body { (code : Code) (fuel : ℕ) (go : Going) (p : Proc) (ps : List values.Passed) (k : ℕ) (before inside : Test)
        (mid : Leads Ended) (after : Leads (Option Value)) (P : Routes)
        → CarriesCall code fuel go p ps k (told before) (told inside) (led mid) (led after) (ways P)
        → CarriesOut code fuel (called_with go (Some p) ps) (told before) (led after) (ways P) }
    ensures recursive { (code : Code) (M : Process) (p : Proc) (calling inside : ℕ → List values.Passed → Test)
        (mid : ℕ → List values.Passed → Leads Ended) (after : ℕ → List values.Passed → Leads (Option Value)) (P : Routes)
        → CallsItself code M p (λ k ps. told (calling k ps)) (λ k ps. told (inside k ps)) (λ k ps. led (mid k ps)) (λ k ps. led (after k ps)) (ways P)
        → (fuel k : ℕ) (ps : List values.Passed)
        → CarriesOut code fuel (called_with (run fuel M) (Some p) ps) (told (calling k ps)) (led (after k ps)) (ways P) }
    ensures action { (code : Code) (fuel : ℕ) (go : Going) (M : Process) (b : Setting) (place : Place) (rest : Remainder) (p : ℕ)
        (args : List Arg) (x : Option VarId) (before : Test) (after : Leads Ended) (P : Routes)
        → ((s : State) (ps : List values.Passed) → passed_to M b s.store (formals_of M p) args ≡ Ok ps
        → CarriesOut code fuel (then_do (called go M p ps) (receiving M b place x (go b rest))) (in_state s (told before)) (led after) (ways P))
        → ((s : State) (kind : FaultKind) → passed_to M b s.store (formals_of M p) args ≡ Err kind
        → (now : Config) → told before s now → led after (Fault kind place) s now)
        → CarriesOut code fuel (act_on go M b place rest (Call p args x)) (told before) (led after) (ways P) }
{}

/// Partitions are entered one after the other. The second of two may fail, or stop, when the first is entered.
pub fn partitions_are_followed()
    ensures one_and_others { (code : Code) (fuel : ℕ) (M : Process) (enter : Entering) (q : Partition) (qs : List Partition) (before : Test)
        (hooked : Leads ⊤) (arrived : Leads Arrival) (parted : Leads (Option Active)) (others : Option Active → Leads Parts)
        (after : Leads Parts) (H S R T : Routes)
        → EntersPartitions code fuel M enter q qs (told before) (led hooked) (led arrived) (led parted) (λ a. led (others a)) (led after)
        (ways H) (ways S) (ways R) (ways T)
        → CarriesOut code fuel (enter_parts M enter (q ∷ qs)) (told before) (led after)
        (one_then (ways H) (one_then (ways S) (one_then (ways R) (ways T)))) }
    ensures second_fails { (code : Code) (fuel : ℕ) (M : Process) (enter : Entering) (q r : Partition) (before : Test)
        (hooked : Leads ⊤) (arrived : Leads Arrival) (parted : Leads (Option Active)) (hooked_then : Leads ⊤) (failed : Leads Arrival)
        (after : Leads Parts) (H S R K F : Routes)
        → EntersOne code fuel M enter q (told before) (led hooked) (led arrived) (led parted) (led after) (ways H) (ways S) (ways R)
        → ((a : Option Active)
        → FailsInLast code fuel M enter r (led parted (Done a)) (led hooked_then) (led failed) (led after) (ways K) (ways F))
        → CanFollow (ways R) (one_then (ways K) (ways F)) → CanFollow (ways S) (one_then (ways R) (one_then (ways K) (ways F)))
        → CanFollow (ways H) (one_then (ways S) (one_then (ways R) (one_then (ways K) (ways F))))
        → CarriesOut code fuel (enter_parts M enter (q ∷ r ∷ [])) (told before) (led after)
        (one_then (ways H) (one_then (ways S) (one_then (ways R) (one_then (ways K) (ways F))))) }
    ensures last_fails { (code : Code) (fuel : ℕ) (M : Process) (enter : Entering) (q : Partition) (before : Test)
        (hooked : Leads ⊤) (failed : Leads Arrival) (after : Leads Parts) (H S : Routes)
        → FailsInLast code fuel M enter q (told before) (led hooked) (led failed) (led after) (ways H) (ways S)
        → CarriesOut code fuel (enter_parts M enter (q ∷ [])) (told before) (led after) (one_then (ways H) (ways S)) }
{}

/// A process settles with every number of units, however often its continuous signals fire.
pub fn settling_is_followed()
    ensures { (code : Code) (M : Process) (settling : Active → Test) (tests : Active → List Continuous → Test)
        (firing : Active → Continuous → Test) (fired after : Leads Active) (T X : Passed) (F : Routes)
        → Settles code M (λ a. told (settling a)) (λ a xs. told (tests a xs)) (λ a x. told (firing a x)) (led fired) (led after)
        (listed T) (listed X) (ways F)
        → (a : Active) → Always code (settle M a) (told (settling a)) (led after) (behind (listed T) (testing (listed T) (listed X) (ways F))) }
{}
