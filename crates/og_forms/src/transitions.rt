//! Forms in transitions (Z.102 clauses 11.12 and 11.13).
ghost use Rattle.std.specs.Prelude.{◌≡◌, flat_map};
ghost use Rattle.std.specs.List.{list_any};
ghost use Rattle.og_forms.specs.Forms.{noted, in_transition as forms_in_transition, in_step as forms_in_step, in_action as forms_in_action, in_decision as forms_in_decision, in_branch as forms_in_branch, in_label as forms_in_label, in_task as forms_in_task, in_assign as forms_in_assign, in_output as forms_in_output, in_terminator as forms_in_terminator, in_end as forms_in_end, is_value as is_value_of, has_values as has_values_in};

use crate::calls::call_form;
use crate::form::Form;
use crate::noting::{note, note_if};
use og_ast::{
    ActionTree, AssignTree, AssignedTree, BranchTree, DecisionTree, Name, OutTree, StepTree,
    TerminatorKind, TerminatorTree, TransitionTree,
};
use og_base::{Place, Violation};

/// The forms of a transition.
#[cycle(moving)]
#[tactic(auto, using(crate::proofs::FirstSoFar::notes, crate::proofs::Opens::opens))]
pub fn note_transition(transition: &TransitionTree, first: &mut Option<Violation>)
    ensures { first.new ≡ noted first.old (forms_in_transition transition.now) }
{
    note_steps(transition.steps.as_slice(), first);
    if let Some(terminator) = &transition.terminator {
        note_terminator(terminator, first);
    }
}

#[cycle(moving)]
#[tactic(auto, using(crate::proofs::FirstSoFar::notes))]
fn note_steps(steps: &[StepTree], first: &mut Option<Violation>)
    ensures { first.new ≡ noted first.old (flat_map forms_in_step steps.now) }
{
    for step in steps {
        note_step(step, first);
    }
}

#[cycle(moving)]
#[tactic(auto, using(crate::proofs::FirstSoFar::notes, crate::proofs::Opens::opens))]
fn note_step(step: &StepTree, first: &mut Option<Violation>)
    ensures { first.new ≡ noted first.old (forms_in_step step.now) }
{
    note_label(&step.label, first);
    note_action(&step.action, step.place, first);
}

/// The forms of an action, whose keyword stands at the place.
#[cycle(moving)]
#[tactic(auto, using(crate::proofs::FirstSoFar::notes, crate::proofs::Opens::opens))]
fn note_action(action: &ActionTree, place: Place, first: &mut Option<Violation>)
    ensures { first.new ≡ noted first.old (forms_in_action action.now place) }
{
    match action {
        ActionTree::Informal(_) => note(Form::InformalTask, place, first),
        ActionTree::Task(assigns) => note_task(assigns.as_slice(), place, first),
        ActionTree::Output(outs) => note_output(outs.as_slice(), place, first),
        ActionTree::Call(call) => note(call_form(call), place, first),
        ActionTree::Decision(decision) => {
            note(Form::Decision, place, first);
            note_decision(decision, first);
        }
    }
}

/// The forms of the transitions of a decision.
#[cycle(moving)]
#[tactic(auto, using(crate::proofs::FirstSoFar::notes, crate::proofs::Opens::opens))]
fn note_decision(decision: &DecisionTree, first: &mut Option<Violation>)
    ensures { first.new ≡ noted first.old (forms_in_decision decision.now) }
{
    note_branches(decision.branches.as_slice(), first);
    if let Some(otherwise) = &decision.otherwise {
        note_transition(&otherwise.transition, first);
    }
}

#[cycle(moving)]
#[tactic(auto, using(crate::proofs::FirstSoFar::notes, crate::proofs::Opens::opens))]
fn note_branches(branches: &[BranchTree], first: &mut Option<Violation>)
    ensures { first.new ≡ noted first.old (flat_map forms_in_branch branches.now) }
{
    for branch in branches {
        note_branch(branch, first);
    }
}

#[cycle(moving)]
#[tactic(auto, using(crate::proofs::FirstSoFar::notes, crate::proofs::Opens::opens))]
fn note_branch(branch: &BranchTree, first: &mut Option<Violation>)
    ensures { first.new ≡ noted first.old (forms_in_branch branch.now) }
{
    note_transition(&branch.transition, first);
}

fn note_label(label: &Option<Name>, first: &mut Option<Violation>)
    ensures { first.new ≡ noted first.old (forms_in_label label.now) }
{
    if let Some(name) = label {
        note(Form::Label, name.place, first);
    }
}

/// The forms of TASK, which stands at the place, with assignments.
#[tactic(auto, using(crate::proofs::FirstSoFar::notes))]
fn note_task(assigns: &[AssignTree], place: Place, first: &mut Option<Violation>)
    ensures { first.new ≡ noted first.old (forms_in_task assigns.now place) }
{
    note_if(is_any_value(assigns), Form::Assignment, place, first);
    note_assigned_calls(assigns, first);
}

fn is_any_value(assigns: &[AssignTree]) -> bool
    ensures { result ≡ list_any is_value_of assigns.now }
{
    assigns.iter().any(|assign| is_value(assign))
}

/// Whether the right side of an assignment is no CALL.
fn is_value(assign: &AssignTree) -> bool
    ensures { result ≡ is_value_of assign.now }
{
    match assign.value {
        AssignedTree::Call(..) => false,
        AssignedTree::Value(_) => true,
    }
}

#[tactic(auto, using(crate::proofs::FirstSoFar::notes))]
fn note_assigned_calls(assigns: &[AssignTree], first: &mut Option<Violation>)
    ensures { first.new ≡ noted first.old (flat_map forms_in_assign assigns.now) }
{
    for assign in assigns {
        note_if(
            !is_value(assign),
            Form::AssignedCall,
            assign.target.name.place,
            first,
        );
    }
}

/// The forms of OUTPUT, which stands at the place.
#[tactic(auto, using(crate::proofs::FirstSoFar::notes))]
fn note_output(outs: &[OutTree], place: Place, first: &mut Option<Violation>)
    ensures { first.new ≡ noted first.old (forms_in_output outs.now place) }
{
    note_if(outs.len() > 1, Form::SeveralOutputs, place, first);
    note_if(has_any_values(outs), Form::OutputValues, place, first);
}

fn has_any_values(outs: &[OutTree]) -> bool
    ensures { result ≡ list_any has_values_in outs.now }
{
    outs.iter().any(|out| has_values(out))
}

fn has_values(out: &OutTree) -> bool
    ensures { result ≡ has_values_in out.now }
{
    out.values.len() > 0
}

#[tactic(auto, using(crate::proofs::FirstSoFar::notes))]
fn note_terminator(terminator: &TerminatorTree, first: &mut Option<Violation>)
    ensures { first.new ≡ noted first.old (forms_in_terminator terminator.now) }
{
    note_label(&terminator.label, first);
    note_end(&terminator.kind, terminator.place, first);
}

/// The forms of a terminator, whose keyword stands at the place.
fn note_end(kind: &TerminatorKind, place: Place, first: &mut Option<Violation>)
    ensures { first.new ≡ noted first.old (forms_in_end kind.now place) }
{
    match kind {
        TerminatorKind::Dash(_) => note(Form::Dash, place, first),
        TerminatorKind::History(_) => note(Form::History, place, first),
        TerminatorKind::Next(_, Some(_)) => note(Form::Via, place, first),
        TerminatorKind::Next(_, None) => {}
        TerminatorKind::Join(_) => note(Form::Join, place, first),
        TerminatorKind::Return(_) => note(Form::Return, place, first),
        TerminatorKind::Stop => note(Form::Stop, place, first),
    }
}
