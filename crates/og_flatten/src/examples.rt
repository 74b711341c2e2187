//! What costs a unit, and how a run is cut into units, computed for small examples.
ghost use Rattle.std.specs.Prelude.{◌≡◌, [], ◌∷◌, Some, None};
ghost use Rattle.std.specs.Option.{is_some};
ghost use Rattle.og_model.specs.declared.Step.{Step};
ghost use Rattle.og_ir.specs.Steps.{Frame, Running, Over, quiet};
ghost use Rattle.og_follow.specs.Cuts.{places_of, units_in};
ghost use Rattle.og_flatten.specs.Examples.{step_begins, places_passed};
ghost use Rattle.og_flatten.specs.Units.{A_step, costs_of_steps, units_begun, unit_of};

/// Each step of a body costs a unit. A run that ends passes no more places. Where a step begins at one place alone, a run
/// that passes it twice has two units; what comes before belongs to none, and what follows to the unit before it.
pub fn units_compute()
    ensures costs { (x y : Step) → costs_of_steps 3 0 (x ∷ y ∷ []) ≡ A_step 3 0 ∷ A_step 3 1 ∷ [] }
    ensures passed { (f : Frame) → places_of (λ now. quiet (Over [])) 5 (Running [] f []) ≡ f ∷ [] }
    ensures counted { units_in (λ f. is_some (step_begins f)) places_passed ≡ 2 }
    ensures begun { units_begun step_begins places_passed ≡ A_step 4 1 ∷ A_step 4 1 ∷ [] }
    ensures before { unit_of step_begins None places_passed 0 ≡ None }
    ensures belongs { unit_of step_begins None places_passed 2 ≡ Some (A_step 4 1) }
{}
