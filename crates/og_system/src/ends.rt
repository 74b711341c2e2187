//! Which transitions close (Z.102 clauses 11.12 and 11.13).
#![tactic(auto, using(crate::proofs::Opens::opens))]

ghost use Rattle.std.specs.Prelude.{◌≡◌, map, ◌||◌};
ghost use Rattle.std.specs.List.{list_all};
ghost use Rattle.og_system.specs.Closing.{does_last, closes as closes_in, step_closes as step_closes_in, action_closes as action_closes_in, decision_closes as decision_closes_in, branch_closes as branch_closes_in};

use og_ast::{ActionTree, BranchTree, DecisionTree, StepTree, TransitionTree};

/// Whether a transition closes: it has a terminator, or its last action is a decision of which each branch closes.
#[cycle(closing)]
pub fn closes(transition: &TransitionTree) -> bool
    ensures { result ≡ closes_in transition.now }
{
    transition.terminator.is_some() || last_closes(transition.steps.as_slice())
}

#[cycle(closing)]
fn last_closes(steps: &[StepTree]) -> bool
    ensures { result ≡ does_last (map step_closes_in steps.now) }
{
    match steps {
        [] => false,
        [.., last] => step_closes(last),
    }
}

#[cycle(closing)]
fn step_closes(step: &StepTree) -> bool
    ensures { result ≡ step_closes_in step.now }
{
    action_closes(&step.action)
}

#[cycle(closing)]
fn action_closes(action: &ActionTree) -> bool
    ensures { result ≡ action_closes_in action.now }
{
    match action {
        ActionTree::Informal(_) => false,
        ActionTree::Task(_) => false,
        ActionTree::Output(_) => false,
        ActionTree::Call(_) => false,
        ActionTree::Decision(decision) => decision_closes(decision),
    }
}

#[cycle(closing)]
fn decision_closes(decision: &DecisionTree) -> bool
    ensures { result ≡ decision_closes_in decision.now }
{
    if !branches_close(decision.branches.as_slice()) {
        return false;
    }
    match &decision.otherwise {
        None => true,
        Some(otherwise) => closes(&otherwise.transition),
    }
}

#[cycle(closing)]
fn branches_close(branches: &[BranchTree]) -> bool
    ensures { result ≡ list_all branch_closes_in branches.now }
{
    for branch in branches {
        if !branch_closes(branch) {
            return false;
        }
    }
    true
}

#[cycle(closing)]
fn branch_closes(branch: &BranchTree) -> bool
    ensures { result ≡ branch_closes_in branch.now }
{
    closes(&branch.transition)
}
