//! What is seen of a machine is what its program shows.

ghost use Rattle.std.specs.Prelude.{◌≡◌, ℕ, ◌≤◌, List, Option};
ghost use Rattle.og_model.specs.declared.Model.{Model as Process};
ghost use Rattle.og_model.specs.Shown.{Stimulus};
ghost use Rattle.og_csubset.specs.declared.CProgram.{CProgram as Program};
ghost use Rattle.og_csubset.specs.Run.{all_stimuli, c_machine, runs, c};
ghost use Rattle.og_cstep.specs.Machines.{Run, loaded};
ghost use Rattle.og_cstep.specs.WholeRuns.{seen_over};

/// A machine that is given each of some stimuli in turn, and advances at most `steps` times for each until an answer says that
/// the run has ended, shows what the program shows over the model with so many statements, of which there is one or more;
/// from load on, that is the program's run. The values of a signal's parameters are set one after the other before it begins.
pub fn whole_runs()
    ensures further { (run : Run) (stimuli : List (Option Stimulus)) (steps : ℕ) → 1 ≤ steps
        → seen_over steps stimuli run ≡ runs (c_machine run.program run.model) steps stimuli run.cells }
    ensures whole { (program : Program) (model : Process) (stimuli : List Stimulus) (steps : ℕ) → 1 ≤ steps
        → seen_over steps (all_stimuli stimuli) (loaded program model) ≡ c program model stimuli steps }
{}
