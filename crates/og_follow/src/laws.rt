//! What code has to do for each way in which the meaning puts doings together, and for the start and each stimulus.

ghost use Rattle.std.specs.Prelude.{◌≡◌, ℕ, suc, ◌+◌, ◌*◌, ◌≤◌, List, [], ◌∷◌, ◌++◌, Bool, true, false, IsTrue, Result, Ok, Err};
ghost use Rattle.og_base.specs.declared.Place.{Place};
ghost use Rattle.og_model.specs.declared.FaultKind.{FaultKind};
ghost use Rattle.og_model.specs.declared.Model.{Model as Process};
ghost use Rattle.og_model.specs.Configuration.{Active};
ghost use Rattle.og_model.specs.Expressions.{Store};
ghost use Rattle.og_model.specs.Run.{sdl};
ghost use Rattle.og_model.specs.Shown.{Event};
ghost use Rattle.og_model.specs.Units.{State, Outcome, Done, Fault, Out, Doing, ends, runs_out, showing, then_do, spend, or_fault, storing, timing};
ghost use Rattle.og_ir.specs.declared.Ir.{Ir};
ghost use Rattle.og_ir.specs.Cells.{Cells};
ghost use Rattle.og_ir.specs.Steps.{Frame, Config};
ghost use Rattle.og_csubset.specs.Agreement.{AreStimuli, SameRuns};
ghost use Rattle.og_csubset.specs.Paced.{Pace, IsPace, paced_runs, paced_size};
ghost use Rattle.og_csubset.specs.Run.{Machine, all_stimuli};
ghost use Rattle.og_follow.specs.Answers.{Answers, Simulates};
ghost use Rattle.og_follow.specs.Cuts.{IsCut};
ghost use Rattle.og_follow.specs.Passing.{Passed};
ghost use Rattle.og_follow.specs.Carrying.{Code, IsRunning, in_state, EndsAlike, either, Each, Apart, AtLeast, by_state, by_units, Moves, Passes, Begins, CarriesOut, no_places, behind, behind_unit, before_places, one_then, CanFollow, Narrower, Test, told, Leads, led, listed, Routes, ways, Always, code_at, Returned};

/// A step is straight code, or begins a unit; straight code goes on with straight code, and so does a unit.
pub fn steps_go_on()
    ensures passes { (code : Code) (before : Test) (shown : List Event) (after : Test) (X : Passed)
        → Each code.unit_at false (listed X)
        → ((s : State) (now : Config) → told before s now → Moves code shown (told after s) (listed X) now)
        → Passes code (told before) shown (told after) (listed X) }
    ensures begins { (code : Code) (before : Test) (shown : List Event) (after : Test) (X : Passed)
        → Each code.unit_at true (listed X)
        → ((s : State) (now : Config) → told before s now → Moves code shown (told after s) (listed X) now)
        → Begins code (told before) shown (told after) (listed X) }
    ensures passes_on { (code : Code) (before : Test) (one : List Event) (mid : Test) (two : List Event) (after : Test) (X Y : Passed)
        → Passes code (told before) one (told mid) (listed X) → Passes code (told mid) two (told after) (listed Y)
        → Apart (listed Y) (listed X)
        → Passes code (told before) (one ++ two) (told after) (either (listed X) (listed Y)) }
    ensures begins_on { (code : Code) (before : Test) (one : List Event) (mid : Test) (two : List Event) (after : Test) (X Y : Passed)
        → Begins code (told before) one (told mid) (listed X) → Passes code (told mid) two (told after) (listed Y)
        → Apart (listed Y) (listed X)
        → Begins code (told before) (one ++ two) (told after) (either (listed X) (listed Y)) }
{}

/// An outcome is carried out where the code stands already, and where there are no units nothing more is done.
pub fn outcomes_are_at_once<A>()
    ensures ends { (code : Code) (fuel : ℕ) (o : Outcome A) (before : Test) (after : Leads A) (P : Routes)
        → (o ≡ Out → ⊥) → AtLeast P.least 0 o → ((s : State) (now : Config) → told before s now → led after o s now)
        → CarriesOut code fuel (ends o) (told before) (led after) (ways P) }
    ensures out { (code : Code) (before : Test) (after : Leads A) (P : Routes)
        → ((s : State) (now : Config) → told before s now → IsRunning now)
        → CarriesOut code 0 (runs_out {A = A}) (told before) (led after) (ways P) }
{}

/// Straight code before a doing, which may show the doing's first event, and straight code behind it.
pub fn straight_code_is_added<A>()
    ensures before { (code : Code) (fuel : ℕ) (d : Doing A) (before mid : Test) (after : Leads A) (X : Passed) (P : Routes)
        → Passes code (told before) [] (told mid) (listed X)
        → CarriesOut code fuel d (told mid) (led after) (ways P)
        → Apart (listed P.head) (listed X) → Apart (listed P.near) (listed X)
        → CarriesOut code fuel d (told before) (led after) (behind (listed X) (ways P)) }
    ensures showing { (code : Code) (fuel : ℕ) (event : Event) (d : Doing A) (before mid : Test) (after : Leads A) (X : Passed) (P : Routes)
        → Passes code (told before) (event ∷ []) (told mid) (listed X)
        → CarriesOut code fuel d (told mid) (led after) (ways P)
        → Apart (listed P.head) (listed X) → Apart (listed P.near) (listed X)
        → CarriesOut code fuel (showing event d) (told before) (led after) (behind (listed X) (ways P)) }
    ensures after { (code : Code) (fuel : ℕ) (d : Doing A) (before : Test) (mid after : Leads A) (X : Passed) (P : Routes)
        → CarriesOut code fuel d (told before) (led mid) (ways P)
        → ((o : Outcome A) → Passes code (led mid o) [] (led after o) (listed X))
        → Apart (listed X) (listed P.head) → Apart (listed X) (listed P.near) → Apart (listed X) (listed P.tail)
        → CarriesOut code fuel d (told before) (led after) (before_places (ways P) (listed X)) }
{}

/// A doing that spends a unit first, where the code begins one; a unit may show an event with its straight code.
pub fn units_are_begun<A>()
    ensures spend { (code : Code) (fuel : ℕ) (d : Doing A) (before mid : Test) (after : Leads A) (X : Passed) (P : Routes)
        → Begins code (told before) [] (told mid) (listed X)
        → CarriesOut code fuel d (told mid) (led after) (ways P) → Apart (listed P.head) (listed X)
        → CarriesOut code (suc fuel) (spend d) (told before) (led after) (behind_unit (listed X) (ways P)) }
    ensures showing { (code : Code) (fuel : ℕ) (event : Event) (d : Doing A) (before mid : Test) (after : Leads A) (X : Passed) (P : Routes)
        → Begins code (told before) (event ∷ []) (told mid) (listed X)
        → CarriesOut code fuel d (told mid) (led after) (ways P) → Apart (listed P.head) (listed X)
        → CarriesOut code (suc fuel) (spend (showing event d)) (told before) (led after) (behind_unit (listed X) (ways P)) }
    ensures nothing { (code : Code) (d : Doing A) (before : Test) (after : Leads A) (P : Routes)
        → ((s : State) (now : Config) → told before s now → IsRunning now)
        → CarriesOut code 0 (spend d) (told before) (led after) (ways P) }
{}

/// One doing after the other: the second begins where the first leads with its result.
pub fn doings_follow_one_another<A, B>()
    ensures { (code : Code) (fuel : ℕ) (d : Doing A) (next : A → Doing B) (before : Test) (mid : Leads A) (after : Leads B) (P Q : Routes)
        → CarriesOut code fuel d (told before) (led mid) (ways P)
        → ((a : A) → CarriesOut code fuel (next a) (led mid (Done a)) (led after) (ways Q))
        → EndsAlike (led mid) (led after) → CanFollow (ways P) (ways Q)
        → CarriesOut code fuel (then_do d next) (told before) (led after) (one_then (ways P) (ways Q)) }
{}

/// A doing that fails or goes on with a value.
pub fn faults_lead_out<A, B>()
    ensures { (code : Code) (fuel : ℕ) (place : Place) (r : Result A FaultKind) (next : A → Doing B) (before : Test) (after : Leads B) (P : Routes)
        → ((a : A) → r ≡ Ok a → CarriesOut code fuel (next a) (told before) (led after) (ways P))
        → ((kind : FaultKind) → r ≡ Err kind → (s : State) (now : Config) → told before s now → led after (Fault kind place) s now)
        → CarriesOut code fuel (or_fault place r next) (told before) (led after) (ways P) }
{}

/// A doing by the state in which it begins, and one that goes on in another state.
pub fn states_are_followed<A>()
    ensures by_state { (code : Code) (fuel : ℕ) (d : State → Doing A) (before : Test) (after : Leads A) (P : Routes)
        → ((s : State) → CarriesOut code fuel (d s) (in_state s (told before)) (led after) (ways P))
        → CarriesOut code fuel (by_state d) (told before) (led after) (ways P) }
    ensures storing { (code : Code) (fuel : ℕ) (store : Store) (d : Doing A) (before mid : Test) (after : Leads A) (P : Routes)
        → ((s : State) (now : Config) → told before s now → told mid (record s { store = store }) now)
        → CarriesOut code fuel d (told mid) (led after) (ways P)
        → CarriesOut code fuel (storing store d) (told before) (led after) (ways P) }
    ensures timing { (code : Code) (fuel : ℕ) (timers : List Bool) (d : Doing A) (before mid : Test) (after : Leads A) (P : Routes)
        → ((s : State) (now : Config) → told before s now → told mid (record s { timers = timers }) now)
        → CarriesOut code fuel d (told mid) (led after) (ways P)
        → CarriesOut code fuel (timing timers d) (told before) (led after) (ways P) }
{}

/// More standings, more places and less fuel; and a doing that takes its units as fuel.
pub fn more_is_carried_out<A>()
    ensures wider { (code : Code) (fuel fewer : ℕ) (d : Doing A) (before others : Test) (after outer : Leads A) (P Q : Routes)
        → fewer ≤ fuel → ((s : State) (now : Config) → told others s now → told before s now)
        → ((o : Outcome A) (s : State) (now : Config) → led after o s now → led outer o s now) → Narrower (ways P) (ways Q)
        → CarriesOut code fuel d (told before) (led after) (ways P)
        → CarriesOut code fewer d (told others) (led outer) (ways Q) }
    ensures by_units { (code : Code) (d : ℕ → Doing A) (before : Test) (after : Leads A) (P : Routes)
        → ((fuel : ℕ) → CarriesOut code fuel (d fuel) (told before) (led after) (ways P))
        → Always code (by_units d) (told before) (led after) (ways P) }
{}

/// Where code carries out the start, or a stimulus, from its call to its return, it answers it: with the events and the
/// end of the meaning, and with at most so many statements for the units as the bound allows. Its run is cut into units
/// as the meaning is.
pub fn what_is_carried_out_is_answered()
    ensures answered { (rests : Active → State → List Cells → Bool) (halts : State → List Cells → Bool)
        (machine : Machine) (unit_at : Frame → Bool) (pace : Pace) (is_pace : IsPace pace) (ir : Ir)
        (config : Config) (d : Doing Active) (n : ℕ) (s : State) (before : Test) (P : Routes) → told before s config
        → CarriesOut (code_at machine unit_at pace is_pace ir) n d (told before)
        (Returned (λ a s slots. IsTrue (rests a s slots)) (λ s slots. IsTrue (halts s slots)) machine) (ways P)
        → Answers (λ a s slots. IsTrue (rests a s slots)) (λ s slots. IsTrue (halts s slots)) machine pace (paced_size pace ir) config n (d n s) }
    ensures cut { (rests : Active → State → List Cells → Bool) (halts : State → List Cells → Bool)
        (machine : Machine) (unit_at : Frame → Bool) (pace : Pace) (is_pace : IsPace pace) (ir : Ir)
        (config : Config) (d : Doing Active) (n : ℕ) (s : State) (before : Test) (P : Routes) → told before s config
        → CarriesOut (code_at machine unit_at pace is_pace ir) n d (told before)
        (Returned (λ a s slots. IsTrue (rests a s slots)) (λ s slots. IsTrue (halts s slots)) machine) (ways P)
        → IsCut machine.step unit_at config n (d n s) }
{}

/// Where code answers the start and each stimulus as the meaning of a model does, its runs over lists of stimuli agree with
/// the meaning in both directions, and so many statements for each unit are enough.
pub fn answering_code_agrees()
    ensures { (model : Process) (machine : Machine) (pace : Pace) (size : ℕ) (first : List Cells)
        (rests : Active → State → List Cells → Bool) (halts : State → List Cells → Bool)
        → Simulates model machine pace size first (λ a s slots. IsTrue (rests a s slots)) (λ s slots. IsTrue (halts s slots))
        → SameRuns (AreStimuli model) (λ n. n * (size + 1)) (sdl model)
        (λ stimuli n. paced_runs machine pace n (all_stimuli stimuli) first) }
{}
