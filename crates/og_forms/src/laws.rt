//! Laws of forms, each as the contract of a function that does nothing.
ghost use Rattle.std.specs.Prelude.{◌≡◌, ◌↔◌, List, Some, None, IsTrue};
ghost use Rattle.std.specs.List.{list_all, Contains};
ghost use Rattle.og_base.specs.declared.Violation.{Violation};
ghost use Rattle.og_ast.specs.declared.system.Unit.{Unit as UnitTree};
ghost use Rattle.og_places.specs.Contents.{places_in_units};
ghost use Rattle.og_base.specs.Order.{first_of};
ghost use Rattle.og_forms.specs.Forms.{FormAt, forms_in, is_built, unbuilt_in};
ghost use Rattle.og_forms.specs.Examples.{LabelledDecision, AssignedValueAndCall, CallsByName, OutputsAndVia, EveryStateSaves, BasicState, Partition, SignalWithParameter, TheLesserPlace, BuiltFormsAlone, BuiltFormBefore};

/// There is no first violation exactly where each form of the units is built.
pub fn first_of_forms()
    ensures { (units : List UnitTree) → (first_of (unbuilt_in units) ≡ None) ↔ IsTrue (list_all (λ (f : FormAt). is_built f.form) (forms_in units)) }
{}

/// Each form of units stands at a place that their trees keep, and so does each violation that is told of them.
pub fn forms_stand_in_units()
    ensures forms { (units : List UnitTree) (f : FormAt) → Contains (forms_in units) f → Contains (places_in_units units) f.place }
    ensures violations { (units : List UnitTree) (v : Violation) → Contains (unbuilt_in units) v → Contains (places_in_units units) v.place }
    // The one that `first_unbuilt` answers.
    ensures first { (units : List UnitTree) (v : Violation) → first_of (unbuilt_in units) ≡ Some v → Contains (places_in_units units) v.place }
{}

/// Worked examples of forms.
pub fn examples()
    ensures transitions { LabelledDecision × AssignedValueAndCall × CallsByName × OutputsAndVia }
    ensures states { EveryStateSaves × BasicState × Partition }
    ensures units { SignalWithParameter }
    ensures first { TheLesserPlace × BuiltFormsAlone × BuiltFormBefore }
{}
