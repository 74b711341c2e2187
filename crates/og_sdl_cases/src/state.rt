//! States, composite states and state aggregations.

use crate::expression::put_expression;
use crate::out::{Out, Shown, put_all, put_bracketed, put_list, put_some};
use og_ast::{
    AggregationPart, AggregationTree, CompositeTree, ConnectTree, EmptyStateTree, EnablingTree,
    InTree, InnerTree, InputTree, ListTree, PartTree, PointsTree, PriorityTree, ProvidedTree,
    SaveTree, StartTree, StateTree,
};

impl Shown for InnerTree {
    fn show(&self, out: &mut Out) {
        put_inner(out, self);
    }
}

#[cycle(nesting)]
fn put_inner(out: &mut Out, inner: &InnerTree) {
    match inner {
        InnerTree::Dcl(dcl) => dcl.show(out),
        InnerTree::Timer(timer) => timer.show(out),
        InnerTree::Procedure(procedure) => procedure.show(out),
        InnerTree::Start(start) => start.show(out),
        InnerTree::State(state) => state.show(out),
        InnerTree::Composite(composite) => put_composite(out, composite),
        InnerTree::Aggregation(aggregation) => put_aggregation(out, aggregation),
        InnerTree::Connection(connection) => connection.show(out),
    }
}

#[cycle(nesting)]
fn put_composite(out: &mut Out, composite: &CompositeTree) {
    out.at(composite.place);
    out.put("composite ");
    out.name(&composite.name);
    composite.end.show(out);
    put_all(out, composite.points.as_slice(), "");
    put_inside(out, composite.parts.as_slice());
    composite.closing.show(out);
}

#[cycle(nesting)]
fn put_inside(out: &mut Out, parts: &[InnerTree]) {
    for part in parts {
        put_inner(out, part);
    }
}

#[cycle(nesting)]
fn put_aggregation(out: &mut Out, aggregation: &AggregationTree) {
    out.at(aggregation.place);
    out.put("aggregation ");
    out.name(&aggregation.name);
    aggregation.end.show(out);
    put_all(out, aggregation.points.as_slice(), "");
    put_partitions(out, aggregation.parts.as_slice());
    aggregation.closing.show(out);
}

#[cycle(nesting)]
fn put_partitions(out: &mut Out, parts: &[AggregationPart]) {
    for part in parts {
        match part {
            AggregationPart::Dcl(dcl) => dcl.show(out),
            AggregationPart::Timer(timer) => timer.show(out),
            AggregationPart::Procedure(procedure) => procedure.show(out),
            AggregationPart::Empty(state) => state.show(out),
            AggregationPart::Composite(composite) => put_composite(out, composite),
        }
    }
}

impl Shown for EmptyStateTree {
    fn show(&self, out: &mut Out) {
        out.at(self.place);
        out.put("partition ");
        out.name(&self.name);
        self.end.show(out);
        self.closing.show(out);
    }
}

impl Shown for PointsTree {
    fn show(&self, out: &mut Out) {
        out.at(self.place);
        out.put(if self.out { "out " } else { "in " });
        put_list(out, self.names.as_slice());
        self.end.show(out);
    }
}

impl Shown for StartTree {
    fn show(&self, out: &mut Out) {
        out.at(self.place);
        out.put("start");
        put_some(out, " ", &self.name, "");
        self.end.show(out);
        self.transition.show(out);
    }
}

impl Shown for StateTree {
    fn show(&self, out: &mut Out) {
        out.at(self.place);
        out.put("state ");
        match &self.list {
            ListTree::Names(names) => put_list(out, names.as_slice()),
            ListTree::All(_, names) => {
                out.put("*");
                put_bracketed(out, names.as_slice());
            }
        }
        self.end.show(out);
        put_all(out, self.parts.as_slice(), "");
        self.closing.show(out);
    }
}

impl Shown for PartTree {
    fn show(&self, out: &mut Out) {
        match self {
            Self::Input(input) => input.show(out),
            Self::Provided(provided) => provided.show(out),
            Self::Connect(connect) => connect.show(out),
            Self::Save(save) => save.show(out),
        }
    }
}

impl Shown for InputTree {
    fn show(&self, out: &mut Out) {
        out.at(self.place);
        out.put("input ");
        put_list(out, self.inputs.as_slice());
        self.end.show(out);
        put_some(out, "", &self.enabling, "");
        self.transition.show(out);
    }
}

impl Shown for InTree {
    fn show(&self, out: &mut Out) {
        out.name(&self.signal);
        put_bracketed(out, self.variables.as_slice());
    }
}

impl Shown for EnablingTree {
    fn show(&self, out: &mut Out) {
        out.at(self.place);
        out.put("enabling ");
        put_expression(out, &self.condition);
        self.end.show(out);
    }
}

impl Shown for ProvidedTree {
    fn show(&self, out: &mut Out) {
        out.at(self.place);
        out.put("provided ");
        put_expression(out, &self.condition);
        self.end.show(out);
        put_some(out, "", &self.priority, "");
        self.transition.show(out);
    }
}

impl Shown for PriorityTree {
    fn show(&self, out: &mut Out) {
        out.at(self.place);
        out.put("priority ");
        out.number(self.number);
        self.end.show(out);
    }
}

impl Shown for ConnectTree {
    fn show(&self, out: &mut Out) {
        out.at(self.place);
        out.put("connect");
        put_bracketed(out, self.names.as_slice());
        self.end.show(out);
        self.transition.show(out);
    }
}

impl Shown for SaveTree {
    fn show(&self, out: &mut Out) {
        out.at(self.place);
        out.put("save ");
        put_list(out, self.names.as_slice());
        self.end.show(out);
    }
}
