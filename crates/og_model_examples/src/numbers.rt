//! Examples of regions, sizes and well-formed models, computed from their definitions.

ghost use Rattle.std.specs.Prelude.{◌≡◌, ◌+◌, ◌*◌, List, [], ◌∷◌, true, false};
ghost use Rattle.og_model.specs.RegionTypes.{Leaf, Region};
ghost use Rattle.og_model.specs.Regions.{regions};
ghost use Rattle.og_model.specs.Resolved.{IsResolved};
ghost use Rattle.og_model.specs.Size.{bulk, inlined};
ghost use Rattle.og_model.specs.WellFormed.{IsWellFormed};
ghost use Rattle.og_model.specs.Forms.{UsesBasicStatesOnly};
ghost use Rattle.og_model_examples.specs.Sample.{double_underscore, entering_procedure, first_value_outside, nested, state_not_there, twice_handled, two_states, with_data, without_start, leaf, lists, literal, opaque_items, region, sending, sending_in_procedure, taking};

/// Two basic states are two leaves of one region.
pub fn regions_of_two_states()
    ensures { regions two_states ≡ region [] (leaf (3 ∷ []) true ∷ leaf (4 ∷ []) true ∷ []) ∷ [] }
{}

/// The leaves of a composite state are leaves of its region; each partition is a region of its own.
pub fn regions_of_nested_states()
    ensures { regions nested ≡
        region [] (leaf (2 ∷ 3 ∷ []) true ∷ leaf (2 ∷ 4 ∷ []) false ∷ leaf (10 ∷ []) true ∷ [])
        ∷ region (2 ∷ 4 ∷ 5 ∷ []) (leaf (6 ∷ []) true ∷ [])
        ∷ region (2 ∷ 4 ∷ 7 ∷ []) (leaf (8 ∷ []) true ∷ leaf (9 ∷ []) true ∷ []) ∷ [] }
{}

/// A start, a handler, an output and two endings.
pub fn inlined_size_of_two_states()
    ensures { inlined two_states ≡ 5 }
{}

/// The called procedure counts 4, the call and its argument 3, the decision 6, the handlers and the condition 5, the start 1 and
/// two endings 2.
pub fn inlined_size_with_a_call()
    ensures { inlined with_data ≡ 21 }
{}

/// Four times the inlined size, two states and two signals.
pub fn bulk_of_two_states()
    ensures { bulk two_states ≡ 4 * (5 + 4) }
{}

/// The depths of starts, states, handlers and partitions are 23 together.
pub fn bulk_of_nested_states()
    ensures { bulk nested ≡ 4 * (10 + 23 + 10) }
{}

/// A variable of an input, a selector and the call's 4 cells and one value count more, and there are 9 cells.
pub fn bulk_with_a_call()
    ensures { bulk with_data ≡ 4 * (28 + 9 + 2) }
{}

/// Two basic states are accepted, and use basic states only.
pub fn two_states_are_well_formed()
    ensures accepted { IsWellFormed two_states }
    ensures basic { UsesBasicStatesOnly two_states }
{}

/// States in states are accepted.
pub fn nested_states_are_well_formed()
    ensures { IsWellFormed nested }
{}

/// Data and a procedure are accepted.
pub fn data_is_well_formed()
    ensures { IsWellFormed with_data }
{}

/// NEXTSTATE of a state that is not there is not accepted.
pub fn states_are_there()
    ensures { IsWellFormed state_not_there → ⊥ }
{}

/// Two handlers for one signal in one state are not accepted.
pub fn signals_are_handled_once()
    ensures { IsWellFormed twice_handled → ⊥ }
{}

/// Two underscores together in a name are not accepted.
pub fn names_have_single_underscores()
    ensures { IsWellFormed double_underscore → ⊥ }
{}

/// A process without a start is not accepted.
pub fn processes_have_a_start()
    ensures { IsWellFormed without_start → ⊥ }
{}

/// A first value outside its type is not accepted.
pub fn first_values_are_in_their_types()
    ensures { IsWellFormed first_value_outside → ⊥ }
{}

/// The trees of texts may break rules: by a first value outside its type, and by NEXTSTATE in a procedure, whatever its number.
pub fn trees_ask_no_rule()
    ensures first_value { IsResolved first_value_outside }
    ensures next_state { IsResolved entering_procedure }
    ensures refused { IsWellFormed entering_procedure → ⊥ }
{}

/// States in states and data are further forms.
pub fn further_forms()
    ensures states { UsesBasicStatesOnly nested → ⊥ }
    ensures data { UsesBasicStatesOnly with_data → ⊥ }
{}

/// Parameters are no further form; a signal's values may be dropped, and an output gives one for each parameter.
pub fn parameters_are_accepted()
    ensures dropped { IsWellFormed (taking (lists 2) 1) }
    ensures sent { IsWellFormed (sending (literal 4 ∷ [])) }
    ensures basic { UsesBasicStatesOnly (taking (lists 2) 1) }
{}

/// An output with fewer or more values than its signal has parameters is not accepted.
pub fn outputs_have_all_values()
    ensures fewer { IsWellFormed (sending []) → ⊥ }
    ensures more { IsWellFormed (sending (literal 4 ∷ literal 4 ∷ [])) → ⊥ }
    ensures in_procedure { IsWellFormed sending_in_procedure → ⊥ }
{}

/// A parameter of an opaque type is not accepted, nor is one with an opaque part.
pub fn parameters_are_not_opaque()
    ensures whole { IsWellFormed (taking opaque_items 0) → ⊥ }
    ensures part { IsWellFormed (taking opaque_items 1) → ⊥ }
{}

/// A list of 65,535 items and its length are 65,536 cells, which are accepted; one item more is not.
pub fn cells_are_counted()
    ensures most { IsWellFormed (taking (lists 65535) 1) }
    ensures more { IsWellFormed (taking (lists 65536) 1) → ⊥ }
{}
