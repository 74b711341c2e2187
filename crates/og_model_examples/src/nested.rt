//! States in states, and state aggregations.

ghost use Rattle.std.specs.Prelude.{◌≡◌, [], ◌∷◌};
ghost use Rattle.og_model.specs.Run.{sdl};
ghost use Rattle.og_model_examples.specs.Words.{go, go_next};
ghost use Rattle.og_model_examples.specs.Nested as Nested;
ghost use Rattle.og_model_examples.specs.Aggregations as Aggregations;

/// One connection is joined from two states, and its dash enters the state anew from which the transition came.
pub fn connections_are_joined()
    ensures { sdl Nested.joined Nested.joined_stimuli 100 ≡ Nested.joined_trace }
{}

/// `entry`, the inner start, `exit` and CONNECT come in this order.
pub fn composite_states_are_completed()
    ensures { sdl Nested.completing [] 100 ≡ Nested.completing_trace }
{}

/// The innermost state takes a signal first and is left first, and VIA names the inner start.
pub fn inner_states_come_first()
    ensures { sdl Nested.entering Nested.entering_stimuli 100 ≡ Nested.entering_trace }
{}

/// A dash of an inner state enters that state alone, a dash of the outer one enters it anew.
pub fn dashes_enter_anew()
    ensures by_the_start_without_a_name { sdl Nested.starting_inside (go_next ∷ []) 100 ≡ Nested.starting_inside_trace }
    ensures inner_and_outer { sdl Nested.dashing Nested.dashing_stimuli 100 ≡ Nested.dashing_trace }
{}

/// The values of an input are assigned, and tested, before anything is left.
pub fn values_come_before_leaving()
    ensures { sdl Nested.guarded Nested.guarded_stimuli 100 ≡ Nested.guarded_trace }
{}

/// An aggregation is completed when all its partitions are done, or left by an input of its own.
pub fn aggregations_are_completed_or_left()
    ensures { sdl Aggregations.completing Aggregations.completing_stimuli 100 ≡ Aggregations.completing_trace }
{}

/// A fault in the exit of the second partition comes after the exit of the first one and before the transition.
pub fn partitions_are_left_in_order()
    ensures { sdl Aggregations.failing_exit (go ∷ []) 100 ≡ Aggregations.failing_exit_trace }
{}

/// Each partition takes its own signals, and the aggregation what none of its active inner states takes.
pub fn partitions_take_their_signals()
    ensures outward { sdl Aggregations.outward Aggregations.outward_stimuli 100 ≡ Aggregations.outward_trace }
    ensures side_by_side { sdl Aggregations.side_by_side Aggregations.side_by_side_stimuli 100 ≡ Aggregations.side_by_side_trace }
{}

/// STOP in the start of a partition ends the process; a partition that returns is done before the next one is entered.
pub fn aggregations_can_end_while_entered()
    ensures stopped { sdl Aggregations.stopping [] 100 ≡ Aggregations.stopping_trace }
    ensures completed { sdl Aggregations.done_at_once [] 100 ≡ Aggregations.done_at_once_trace }
{}

/// A dash after CONNECT enters the completed state anew, which may run on for ever.
pub fn completions_can_run_on()
    ensures in_7 { sdl Nested.completing_for_ever [] 7 ≡ Nested.completing_for_ever_in_7 }
    ensures in_8 { sdl Nested.completing_for_ever [] 8 ≡ Nested.completing_for_ever_in_8 }
{}
