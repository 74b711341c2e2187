//! Transitions, a line for each action, answer and terminator.

use crate::expression::{put_expression, put_variable, relation_before};
use crate::out::{Out, Shown, put_bracketed, put_list, put_some};
use og_ast::{
    ActionTree, AnswerTree, ArgTree, AssignTree, AssignedTree, BranchTree, CallTree, ConstTree,
    DecisionTree, OutTree, QuestionTree, StepTree, TerminatorKind, TerminatorTree, TransitionTree,
};

impl Shown for TransitionTree {
    fn show(&self, out: &mut Out) {
        put_transition(out, self);
    }
}

#[cycle(moving)]
fn put_transition(out: &mut Out, transition: &TransitionTree) {
    put_steps(out, transition.steps.as_slice());
    put_some(out, "", &transition.terminator, "");
}

#[cycle(moving)]
fn put_steps(out: &mut Out, steps: &[StepTree]) {
    for step in steps {
        out.at(step.place);
        put_some(out, "", &step.label, ": ");
        put_action(out, &step.action);
        step.end.show(out);
    }
}

#[cycle(moving)]
fn put_action(out: &mut Out, action: &ActionTree) {
    match action {
        ActionTree::Informal(text) => {
            out.put("task ");
            out.text(text);
        }
        ActionTree::Task(assigns) => {
            out.put("task ");
            put_list(out, assigns.as_slice());
        }
        ActionTree::Output(outs) => {
            out.put("output ");
            put_list(out, outs.as_slice());
        }
        ActionTree::Call(call) => call.show(out),
        ActionTree::Decision(decision) => put_decision(out, decision),
    }
}

#[cycle(moving)]
fn put_decision(out: &mut Out, decision: &DecisionTree) {
    out.put("decision ");
    decision.question.show(out);
    decision.end.show(out);
    put_branches(out, decision.branches.as_slice());
    if let Some(otherwise) = &decision.otherwise {
        out.at(otherwise.place);
        out.put("else\n");
        put_transition(out, &otherwise.transition);
    }
    out.put("enddecision");
}

#[cycle(moving)]
fn put_branches(out: &mut Out, branches: &[BranchTree]) {
    for branch in branches {
        out.at(branch.place);
        put_bracketed(out, branch.answers.as_slice());
        out.put("\n");
        put_transition(out, &branch.transition);
    }
}

impl Shown for QuestionTree {
    fn show(&self, out: &mut Out) {
        match self {
            Self::Value(value) => put_expression(out, value),
            Self::Any(_) => out.put("any"),
            Self::Text(text) => out.text(text),
        }
    }
}

impl Shown for AssignTree {
    fn show(&self, out: &mut Out) {
        put_variable(out, &self.target);
        out.put(" := ");
        match &self.value {
            AssignedTree::Call(_, call) => call.show(out),
            AssignedTree::Value(value) => put_expression(out, value),
        }
    }
}

impl Shown for OutTree {
    fn show(&self, out: &mut Out) {
        out.name(&self.signal);
        put_bracketed(out, self.values.as_slice());
    }
}

impl Shown for CallTree {
    fn show(&self, out: &mut Out) {
        out.put("call ");
        out.name(&self.procedure);
        if let Some(args) = &self.args {
            out.put("(");
            put_list(out, args.as_slice());
            out.put(")");
        }
    }
}

impl Shown for ArgTree {
    fn show(&self, out: &mut Out) {
        match self {
            Self::Value(value) => put_expression(out, value),
            Self::Text(text) => out.text(text),
        }
    }
}

impl Shown for AnswerTree {
    fn show(&self, out: &mut Out) {
        match self {
            Self::One(constant) => constant.show(out),
            Self::Range(low, high) => {
                low.show(out);
                out.put(":");
                high.show(out);
            }
            Self::Relation(_, relation, constant) => {
                out.put(relation_before(*relation));
                constant.show(out);
            }
        }
    }
}

impl Shown for ConstTree {
    fn show(&self, out: &mut Out) {
        match self {
            Self::Number(_, number) => out.number(*number),
            Self::Negative(_, number) => {
                out.put("-");
                out.number(*number);
            }
            Self::Name(name) => out.name(name),
            Self::Truth(_, true) => out.put("TRUE"),
            Self::Truth(_, false) => out.put("FALSE"),
        }
    }
}

impl Shown for TerminatorTree {
    fn show(&self, out: &mut Out) {
        out.at(self.place);
        put_some(out, "", &self.label, ": ");
        self.kind.show(out);
        self.end.show(out);
    }
}

impl Shown for TerminatorKind {
    fn show(&self, out: &mut Out) {
        match self {
            Self::Dash(_) => out.put("nextstate -"),
            Self::History(_) => out.put("nextstate -*"),
            Self::Next(state, via) => {
                out.put("nextstate ");
                out.name(state);
                put_some(out, " via ", via, "");
            }
            Self::Join(label) => {
                out.put("join ");
                out.name(label);
            }
            Self::Return(value) => {
                out.put("return");
                put_some(out, " ", value, "");
            }
            Self::Stop => out.put("stop"),
        }
    }
}
