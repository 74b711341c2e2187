//! Transitions, with decisions and their branches.
ghost use Rattle.std.specs.Prelude.{◌≡◌, [], IfOk, None};
ghost use Rattle.og_reading.specs.Reading.{rest_of, onto, more_of, maybe};
ghost use Rattle.og_parse_body.specs.Reading.{with_step, task_at, branch_at, otherwise_at, decision_at, keyed_at, action_at, unlabelled_at, step_at, onto_step, transition_at};

use crate::action::{
    AnswerReader, AssignReader, OutReader, called_of, label_of, question_of, terminator_of,
};
use crate::ground::end_of;
use og_ast::{
    ActionTree, BranchTree, DecisionTree, ElseTree, Name, StepTree, TerminatorTree, TransitionTree,
};
use og_base::Place;
use og_names::NoMemory;
use og_parse_expr::one_less;
use og_reading::{Left, Listed, Production};
use sqlite_items::Items;
use std::alloc::Global;

/// A step of a transition, or the terminator that ends it.
#[derive(Drop)]
pub enum StepText {
    Step(StepTree),
    Terminator(TerminatorTree),
}

/// The steps so far, and the terminator where it was met.
type SoFar = (Items<StepTree>, Option<TerminatorTree>);

/// With one step more, or with the terminator.
fn with_step(so_far: SoFar, step: StepText) -> Result<SoFar, NoMemory>
    ensures { IfOk result (λ longer. longer ≡ with_step so_far step) }
{
    let (mut steps, terminator) = so_far;
    match step {
        StepText::Step(step) => {
            steps.push(step)?;
            Ok((steps, terminator))
        }
        StepText::Terminator(terminator) => Ok((steps, Some(terminator))),
    }
}

/// `transition = { step }`
#[cycle(transition)]
#[tactic(auto, unfolding(crate::specs::Reading::transition_at, crate::specs::Reading::transition_by))]
pub fn transition_of<'a>(
    alloc: Global,
    fuel: usize,
    from: Left<'a>,
) -> Result<(TransitionTree, Left<'a>), NoMemory>
    ensures { IfOk result (λ x. (x.0, rest_of x.1) ≡ transition_at fuel (rest_of from.entry)) }
{
    let Some(less) = one_less(fuel) else {
        let steps = Items::new(alloc);
        let terminator = None;
        return Ok((TransitionTree { steps, terminator }, from));
    };
    let ((steps, terminator), from) = steps_of(alloc, less, from.after())?;
    Ok((TransitionTree { steps, terminator }, from))
}

/// Steps, and the terminator behind them.
#[cycle(transition)]
#[tactic(auto, using(og_reading::proofs::Turns::loop_turns))]
fn steps_of<'a>(alloc: Global, fuel: usize, from: Left<'a>) -> Result<(SoFar, Left<'a>), NoMemory>
    ensures { IfOk result (λ x. (x.0, rest_of x.1) ≡ onto (onto_step fuel (transition_at fuel)) ([], None) (rest_of from.entry)) }
{
    let mut so_far = (Items::new(alloc), None);
    let mut rest = from;
    for _ in 0..from.choices.len() {
        if !rest.goes_on() {
            return Ok((so_far, rest.after()));
        }
        let (longer, more) = onto_step(alloc, fuel, so_far, rest.after())?;
        so_far = longer;
        rest = more;
    }
    Ok((so_far, rest))
}

/// One step more.
#[cycle(transition)]
#[tactic(auto, unfolding(crate::specs::Reading::onto_step))]
fn onto_step<'a>(
    alloc: Global,
    fuel: usize,
    so_far: SoFar,
    from: Left<'a>,
) -> Result<(SoFar, Left<'a>), NoMemory>
    ensures { IfOk result (λ x. (x.0, rest_of x.1) ≡ onto_step fuel (transition_at fuel) so_far (rest_of from.entry)) }
{
    let (step, from) = step_of(alloc, fuel, from)?;
    Ok((with_step(so_far, step)?, from))
}

/// `step = label unlabelled | unlabelled`
#[cycle(transition)]
#[tactic(auto, unfolding(crate::specs::Reading::step_at))]
fn step_of<'a>(alloc: Global, fuel: usize, from: Left<'a>) -> Result<(StepText, Left<'a>), NoMemory>
    ensures { IfOk result (λ x. (x.0, rest_of x.1) ≡ step_at fuel (transition_at fuel) (rest_of from.entry)) }
{
    let start = from.after();
    if from.choice() == 0 {
        let (label, from) = label_of(alloc, start)?;
        return unlabelled_of(alloc, fuel, Some(label), from);
    }
    unlabelled_of(alloc, fuel, None, start)
}

/// `unlabelled = action end | terminator end no_step`
#[cycle(transition)]
#[tactic(auto, unfolding(crate::specs::Reading::unlabelled_at))]
fn unlabelled_of<'a>(
    alloc: Global,
    fuel: usize,
    label: Option<Name>,
    from: Left<'a>,
) -> Result<(StepText, Left<'a>), NoMemory>
    ensures { IfOk result (λ x. (x.0, rest_of x.1) ≡ unlabelled_at fuel (transition_at fuel) label (rest_of from.entry)) }
{
    let start = from.after();
    if from.choice() == 0 {
        let (step, from) = action_of(alloc, fuel, label, start)?;
        return Ok((StepText::Step(step), from));
    }
    let (terminator, from) = terminator_of(alloc, fuel, label, start)?;
    Ok((StepText::Terminator(terminator), from.after()))
}

/// `action end`, behind its label.
#[cycle(transition)]
#[tactic(auto, unfolding(crate::specs::Reading::action_at))]
fn action_of<'a>(
    alloc: Global,
    fuel: usize,
    label: Option<Name>,
    from: Left<'a>,
) -> Result<(StepTree, Left<'a>), NoMemory>
    ensures { IfOk result (λ x. (x.0, rest_of x.1) ≡ action_at fuel (transition_at fuel) label (rest_of from.entry)) }
{
    let ((place, action), from) = keyed_of(alloc, fuel, from)?;
    let (end, from) = end_of(alloc, from)?;
    let step = StepTree {
        label,
        place,
        action,
        end,
    };
    Ok((step, from))
}

/// `action = TASK task | OUTPUT outs | CALL called | DECISION decision`, with the place of its keyword.
#[cycle(transition)]
#[tactic(auto, unfolding(crate::specs::Reading::keyed_at))]
fn keyed_of<'a>(
    alloc: Global,
    fuel: usize,
    from: Left<'a>,
) -> Result<((Place, ActionTree), Left<'a>), NoMemory>
    ensures { IfOk result (λ x. (x.0, rest_of x.1) ≡ keyed_at fuel (transition_at fuel) (rest_of from.entry)) }
{
    let start = from.after();
    let place = start.place();
    let behind = start.behind();
    match from.choice() {
        0 => {
            let (task, from) = task_of(alloc, fuel, behind)?;
            Ok(((place, task), from))
        }
        1 => {
            let (outs, from) = Listed::<OutReader>::read(alloc, fuel, behind)?;
            Ok(((place, ActionTree::Output(outs)), from))
        }
        2 => {
            let (call, from) = called_of(alloc, fuel, behind)?;
            Ok(((place, ActionTree::Call(call)), from))
        }
        _ => {
            let (decision, from) = decision_of(alloc, fuel, behind)?;
            Ok(((place, ActionTree::Decision(decision)), from))
        }
    }
}

/// `task = text | assigns`
#[tactic(auto, unfolding(crate::specs::Reading::task_at))]
fn task_of<'a>(
    alloc: Global,
    fuel: usize,
    from: Left<'a>,
) -> Result<(ActionTree, Left<'a>), NoMemory>
    ensures { IfOk result (λ x. (x.0, rest_of x.1) ≡ task_at fuel (rest_of from.entry)) }
{
    let start = from.after();
    if from.choice() == 0 {
        let text = start.text(alloc)?;
        return Ok((ActionTree::Informal(text), start.behind()));
    }
    let (assigns, from) = Listed::<AssignReader>::read(alloc, fuel, start)?;
    Ok((ActionTree::Task(assigns), from))
}

/// `decision = question end { branch } [ otherwise ] ENDDECISION`
#[cycle(transition)]
#[tactic(auto, unfolding(crate::specs::Reading::decision_at))]
fn decision_of<'a>(
    alloc: Global,
    fuel: usize,
    from: Left<'a>,
) -> Result<(DecisionTree, Left<'a>), NoMemory>
    ensures { IfOk result (λ x. (x.0, rest_of x.1) ≡ decision_at fuel (transition_at fuel) (rest_of from.entry)) }
{
    let (question, from) = question_of(alloc, fuel, from.after())?;
    let (end, from) = end_of(alloc, from)?;
    let (branches, from) = branches_of(alloc, fuel, from)?;
    let (otherwise, from) = maybe_otherwise(alloc, fuel, from)?;
    let decision = DecisionTree {
        question,
        end,
        branches,
        otherwise,
    };
    Ok((decision, from.behind()))
}

/// The branches.
#[cycle(transition)]
#[tactic(auto, using(og_reading::proofs::Turns::loop_turns))]
fn branches_of<'a>(
    alloc: Global,
    fuel: usize,
    from: Left<'a>,
) -> Result<(Items<BranchTree>, Left<'a>), NoMemory>
    ensures { IfOk result (λ x. (x.0, rest_of x.1) ≡ more_of (branch_at (transition_at fuel)) [] (rest_of from.entry)) }
{
    let mut branches = Items::new(alloc);
    let mut rest = from;
    for _ in 0..from.choices.len() {
        if !rest.goes_on() {
            return Ok((branches, rest.after()));
        }
        let (branch, more) = branch_of(alloc, fuel, rest.after())?;
        branches.push(branch)?;
        rest = more;
    }
    Ok((branches, rest))
}

/// `branch = "(" answers ")" ":" transition`
#[cycle(transition)]
#[tactic(auto, unfolding(crate::specs::Reading::branch_at))]
fn branch_of<'a>(
    alloc: Global,
    fuel: usize,
    from: Left<'a>,
) -> Result<(BranchTree, Left<'a>), NoMemory>
    ensures { IfOk result (λ x. (x.0, rest_of x.1) ≡ branch_at (transition_at fuel) (rest_of from.entry)) }
{
    let start = from.after();
    let place = start.place();
    let (answers, from) = Listed::<AnswerReader>::read(alloc, fuel, start.behind())?;
    let (transition, from) = transition_of(alloc, fuel, from.behind().behind())?;
    let branch = BranchTree {
        place,
        answers,
        transition,
    };
    Ok((branch, from))
}

/// ELSE, where it stands there.
#[cycle(transition)]
fn maybe_otherwise<'a>(
    alloc: Global,
    fuel: usize,
    from: Left<'a>,
) -> Result<(Option<ElseTree>, Left<'a>), NoMemory>
    ensures { IfOk result (λ x. (x.0, rest_of x.1) ≡ maybe (otherwise_at (transition_at fuel)) (rest_of from.entry)) }
{
    if !from.goes_on() {
        return Ok((None, from.after()));
    }
    let (otherwise, from) = otherwise_of(alloc, fuel, from.after())?;
    Ok((Some(otherwise), from))
}

/// `otherwise = ELSE ":" transition`
#[cycle(transition)]
#[tactic(auto, unfolding(crate::specs::Reading::otherwise_at))]
fn otherwise_of<'a>(
    alloc: Global,
    fuel: usize,
    from: Left<'a>,
) -> Result<(ElseTree, Left<'a>), NoMemory>
    ensures { IfOk result (λ x. (x.0, rest_of x.1) ≡ otherwise_at (transition_at fuel) (rest_of from.entry)) }
{
    let start = from.after();
    let place = start.place();
    let (transition, from) = transition_of(alloc, fuel, start.behind().behind())?;
    Ok((ElseTree { place, transition }, from))
}
