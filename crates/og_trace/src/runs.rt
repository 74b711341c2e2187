//! Runs over stimuli, one after the other.
ghost use Rattle.std.specs.Prelude.{◌≡◌, ◌++◌, None, IfOk, OnOk, IsTrue, slice_get, unwrap_or};
ghost use Rattle.og_csubset.specs.Run.{c_machine};
ghost use Rattle.og_cstep.specs.Answered.{answer_at_end};
ghost use Rattle.og_csubset.specs.Agreement.{are_in};
ghost use Rattle.og_csubset.specs.Interface.{signal_sorts, inputs_of};
ghost use Rattle.og_csubset.specs.Kinds.{global_names};
ghost use Rattle.og_csubset.specs.Reads.{inputs_set};
ghost use Rattle.og_cstep.specs.Machines.{run_of, is_signal};
ghost use Rattle.og_model.specs.Regions.{regions as regions_of};
ghost use Rattle.og_stim.specs.Trace.{stimulus_line};
ghost use Rattle.og_trace.specs.Entries.{AreStimuli, IsPlain, IsReady, IsReadyAt, IsStimulus, end_at, entry_of, given_as, lines_for, outcome_for, outcome_told, ran_for, set_by};
ghost use Rattle.og_trace.specs.Traces.{shown_lines};
ghost use Rattle.og_trace.specs.declared.Outcome.{Outcome};

use crate::Outcome;
use crate::ending::show_ending;
use crate::events::show_events;
use og_cstep::{Advance, Machine};
use og_model::{Model, StimId};
use og_names::{NoMemory, Word};
use og_regions::Regions;
use og_stim::{Stimulus, show_stimulus};
use og_types::Value;
use std::alloc::Global;

/// The model that a machine runs over, with its regions, and the words of the files that its places count.
#[derive(Drop)]
pub struct Scene<'a> {
    pub model: &'a Model,
    pub regions: &'a Regions,
    pub files: &'a [Word],
}

/// Runs a machine over stimuli, with at most so many statements for each, and appends what it shows. The outcome is that of
/// the first stimulus that ends the run, none where the next one can come.
pub fn show_stimuli(
    alloc: Global,
    machine: &mut Machine,
    scene: &Scene,
    stimuli: &[Stimulus],
    steps: u32,
    out: &mut Vec<u8>,
) -> Result<Option<Outcome>, NoMemory>
    requires ready { IsReady (run_of machine.old).program scene.now.model.now (run_of machine.old).cells (run_of machine.old) }
    requires regions { scene.now.regions.now.list ≡ regions_of scene.now.model.now }
    requires plain { IsPlain scene.now.model.now }
    requires stimuli { AreStimuli scene.now.model.now stimuli.now }
    ensures text { OnOk result (out.new.items ≡ out.old.items
        ++ lines_for (run_of machine.old).program scene.now.model.now scene.now.files.now steps stimuli.now (run_of machine.old).cells) }
    ensures outcome { IfOk result (λ ended. (behind : Outcome)
        → unwrap_or ended behind ≡ outcome_for (run_of machine.old).program scene.now.model.now steps stimuli.now (run_of machine.old).cells behind) }
{
    for stimulus in stimuli {
        let ended = show_one(alloc, machine, scene, stimulus, steps, out)?;
        if let Some(outcome) = ended {
            return Ok(Some(outcome));
        }
    }
    Ok(None)
}

/// Runs a machine over one stimulus, and appends its line, those of its events and those of its end.
fn show_one(
    alloc: Global,
    machine: &mut Machine,
    scene: &Scene,
    stimulus: &Stimulus,
    steps: u32,
    out: &mut Vec<u8>,
) -> Result<Option<Outcome>, NoMemory>
    requires ready { IsReady (run_of machine.old).program scene.now.model.now (run_of machine.old).cells (run_of machine.old) }
    requires regions { scene.now.regions.now.list ≡ regions_of scene.now.model.now }
    requires plain { IsPlain scene.now.model.now }
    requires stimulus { IsStimulus scene.now.model.now stimulus.now }
    ensures text { OnOk result (out.new.items ≡ out.old.items ++ (stimulus_line scene.now.model.now stimulus.now
        ++ shown_lines scene.now.model.now scene.now.files.now (entry_of (c_machine (run_of machine.old).program scene.now.model.now).ending
        (ran_for (run_of machine.old).program scene.now.model.now steps stimulus.now (run_of machine.old).cells)))) }
    ensures outcome { IfOk result (λ ended. ended ≡ outcome_told (answer_at_end (end_at (c_machine (run_of machine.old).program scene.now.model.now).ending
        (ran_for (run_of machine.old).program scene.now.model.now steps stimulus.now (run_of machine.old).cells).config))) }
    ensures ready { IfOk result (λ ended. ended ≡ None → IsReadyAt (run_of machine.old).program scene.now.model.now
        (ran_for (run_of machine.old).program scene.now.model.now steps stimulus.now (run_of machine.old).cells).config
        (run_of machine.new)) }
{
    show_stimulus(scene.model, stimulus, out)?;
    begin_with(machine, scene.model, stimulus)?;
    let answer = show_events(alloc, machine, scene.model, steps, out)?;
    show_ending(
        alloc,
        machine,
        scene.model,
        scene.regions,
        scene.files,
        answer,
        out,
    )?;
    Ok(outcome_of_answer(answer))
}

/// A stimulus begins, with its values.
fn begin_with(machine: &mut Machine, model: &Model, stimulus: &Stimulus) -> Result<(), NoMemory>
    requires ready { IsReady (run_of machine.old).program model.now (run_of machine.old).cells (run_of machine.old) }
    requires stimulus { IsStimulus model.now stimulus.now }
    ensures program { OnOk result ((run_of machine.new).program ≡ (run_of machine.old).program) }
    ensures model { OnOk result ((run_of machine.new).model ≡ model.now) }
    ensures config { OnOk result ((run_of machine.new).config
        ≡ (c_machine (run_of machine.old).program model.now).begin (given_as stimulus.now) (run_of machine.old).cells) }
{
    set_values(machine, model, stimulus)?;
    machine.begin(stimulus.id);
    Ok(())
}

/// The parameters of a signal hold the values of a stimulus.
fn set_values(machine: &mut Machine, model: &Model, stimulus: &Stimulus) -> Result<(), NoMemory>
    requires ready { IsReady (run_of machine.old).program model.now (run_of machine.old).cells (run_of machine.old) }
    requires stimulus { IsStimulus model.now stimulus.now }
    ensures { OnOk result (IsReady (run_of machine.old).program model.now
        (set_by (run_of machine.old).program model.now stimulus.now.id stimulus.now.values (run_of machine.old).cells)
        (run_of machine.new)) }
{
    match stimulus.id {
        StimId::Start | StimId::Timer(_) => Ok(()),
        StimId::Signal(signal) => set_inputs(machine, model, signal, stimulus.values.as_slice()),
    }
}

/// The parameters of a signal hold values, of which there are as many.
fn set_inputs(
    machine: &mut Machine,
    model: &Model,
    signal: u32,
    values: &[Value],
) -> Result<(), NoMemory>
    requires ready { IsReady (run_of machine.old).program model.now (run_of machine.old).cells (run_of machine.old) }
    requires incoming { IsTrue (is_signal (slice_get model.now.signals signal)) }
    requires values { IsTrue (are_in model.now (signal_sorts model.now signal) values.now) }
    ensures { OnOk result (IsReady (run_of machine.old).program model.now
        (inputs_set model.now (global_names (run_of machine.old).program) (inputs_of model.now signal) values.now (run_of machine.old).cells)
        (run_of machine.new)) }
{
    for (place, value) in values.iter().enumerate() {
        if place > u32::MAX as usize {
            return Err(NoMemory::past_numbers(place));
        }
        machine.set_input(signal, place as u32, value);
    }
    Ok(())
}

/// How a run over a file has ended with this answer, none where the next stimulus can come.
fn outcome_of_answer(answer: Advance) -> Option<Outcome>
    ensures { result ≡ outcome_told answer }
{
    match answer {
        Advance::Rest | Advance::Stopped => None,
        Advance::Moved | Advance::Event(_) => Some(Outcome::Past),
        Advance::Fault(..) => Some(Outcome::Faulted),
        Advance::Stuck(_) => Some(Outcome::Stuck),
    }
}
