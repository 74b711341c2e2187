//! Laws of what a command calls for, each as the contract of a function that does nothing.
ghost use Rattle.std.specs.Prelude.{◌≡◌, ◌≢◌, ◌≤◌, ℕ, List, Some, false, IsTrue};
ghost use Rattle.og_base.specs.Store.{Files};
ghost use Rattle.og_csubset.specs.Agreement.{SameBehaviour, enough};
ghost use Rattle.og_csubset.specs.declared.CProgram.{CProgram};
ghost use Rattle.og_types.specs.Table.{is_table};
ghost use Rattle.og_model.specs.declared.Model.{Model};
ghost use Rattle.og_model.specs.Run.{sdl};
ghost use Rattle.og_model.specs.Shown.{has_past};
ghost use Rattle.og_tool.specs.declared.status.Status.{Status};
ghost use Rattle.og_tool.specs.Answers.{IsOutputFor, IsReport, IsTooLargeFor};
ghost use Rattle.og_trace.specs.Stims.{stims_of, given};
ghost use Rattle.og_trace.specs.Traces.{run_outcome};
ghost use Rattle.og_trace.specs.declared.Outcome.TheVariants as outcome;
ghost use Rattle.og_words.specs.Words.{Command, Check, Compile, Run, Simulate};

use og_csubset::{
    agreeing_programs_show_the_same, more_statements_go_on, one_answer, one_deep_place,
    one_program, one_wrong_place,
};
use og_judge::one_judgement;
use og_report::one_report;

/// Over a store that tells its files, a check and a run call for one text with one status, and the C of a model for one status; a
/// simulation calls for the line of a violation where there is one. Nothing is called for where a file has too many bytes.
pub fn one_output()
    ensures run { (files : Files) (names : List (List ℕ)) (program stimuli : List ℕ) (steps : ℕ) (status other : Status) (text more : List ℕ) →
        IsOutputFor (Some files) (Run names program stimuli steps) status text → IsOutputFor (Some files) (Run names program stimuli steps) other more →
        (status ≡ other) × (text ≡ more) }
    ensures check { (files : Files) (names : List (List ℕ)) (status other : Status) (text more : List ℕ) →
        IsOutputFor (Some files) (Check names) status text → IsOutputFor (Some files) (Check names) other more → (status ≡ other) × (text ≡ more) }
    ensures compile { (files : Files) (names : List (List ℕ)) (status other : Status) (text more : List ℕ) →
        IsOutputFor (Some files) (Compile names) status text → IsOutputFor (Some files) (Compile names) other more → status ≡ other }
    ensures refusal { (files : Files) (names : List (List ℕ)) (stimuli : List ℕ) (steps : ℕ) (status : Status) (text line : List ℕ) →
        IsReport (Some files) names Status.Refused line → IsOutputFor (Some files) (Simulate names stimuli steps) status text →
        (status ≡ Status.Refused) × (text ≡ line) }
    ensures too_large { (files : Files) (command : Command) (status : Status) (text : List ℕ) →
        IsOutputFor (Some files) command status text → IsTooLargeFor (Some files) command → ⊥ }
{
    one_judgement();
    one_report();
    one_program();
    one_answer();
    one_deep_place();
    one_wrong_place();
}

/// A program that agrees with a model whose types are a table is never stuck, whatever bytes its file of stimuli holds.
pub fn agreeing_is_never_stuck()
    ensures { (model : Model) (program : CProgram) → SameBehaviour model program → IsTrue (is_table model.types) → (text : List ℕ) (steps : ℕ) →
        run_outcome model program text steps ≡ outcome.Stuck → ⊥ }
{}

/// Over a store that tells its files, two outputs of one simulation of which neither is cut short are one text with one
/// status, whatever programs that agree with the model they come from.
pub fn one_simulation()
    ensures { (files : Files) (names : List (List ℕ)) (stimuli : List ℕ) (steps : ℕ) (status other : Status) (text more : List ℕ) →
        IsOutputFor (Some files) (Simulate names stimuli steps) status text → IsOutputFor (Some files) (Simulate names stimuli steps) other more →
        status ≢ Status.Past → other ≢ Status.Past → (status ≡ other) × (text ≡ more) }
{
    one_judgement();
    one_report();
    one_program();
    one_answer();
    one_deep_place();
    one_wrong_place();
    agreeing_programs_show_the_same();
    more_statements_go_on();
}

/// Where a model whose types are a table comes to an end with n units of work for the start and for each stimulus of a file, a
/// run of a program that agrees with it is not cut short, as long as it has n times the program's size and one more statements or more.
pub fn enough_is_enough()
    ensures { (model : Model) (program : CProgram) → SameBehaviour model program → IsTrue (is_table model.types) → (text : List ℕ) (n : ℕ) → 1 ≤ n →
        has_past (sdl model (given (stims_of model text).list) n) ≡ false → (steps : ℕ) → enough program n ≤ steps →
        run_outcome model program text steps ≢ outcome.Past }
{
    more_statements_go_on();
}
