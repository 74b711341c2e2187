//! Structured values, and the values of inputs.

ghost use Rattle.std.specs.Prelude.{◌≡◌, [], ◌∷◌};
ghost use Rattle.og_model.specs.Run.{sdl};
ghost use Rattle.og_model_examples.specs.Words.{go, go_next, go_done, go_a};
ghost use Rattle.og_model_examples.specs.Data.{structured, item_trace, full_trace, other_alternative_trace, wide_input_trace, wide_index_trace, inward, inward_trace, receiving, receiving_stimuli, receiving_trace, dropping, dropping_trace};

/// An item is read; a full sequence, another alternative, a value outside its type and an index outside are faults.
pub fn structured_values_are_read_and_written()
    ensures item { sdl structured (go ∷ []) 100 ≡ item_trace }
    ensures full { sdl structured (go_next ∷ []) 100 ≡ full_trace }
    ensures other_alternative { sdl structured (go_done ∷ []) 100 ≡ other_alternative_trace }
    ensures wide_input { sdl structured (go_a 12 ∷ []) 100 ≡ wide_input_trace }
    ensures wide_index { sdl structured (go_a 2 ∷ []) 100 ≡ wide_index_trace }
{}

/// An item and the value of an alternative can be assigned; `length` and `present` ask a variable.
pub fn parts_are_assigned()
    ensures { sdl inward [] 100 ≡ inward_trace }
{}

/// The values of an input go to its variables, or are dropped where it has none.
pub fn inputs_have_values()
    ensures taken { sdl receiving receiving_stimuli 100 ≡ receiving_trace }
    ensures dropped { sdl dropping receiving_stimuli 100 ≡ dropping_trace }
{}
