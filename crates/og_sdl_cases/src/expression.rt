//! Expressions. What an operator binds stands in square brackets; round ones are those of the text.

use crate::out::{Out, Shown};
use og_ast::{
    ComponentTree, ExprNode, ExprTree, FieldTree, Operator, RelationOperator, SelectorKind,
    SelectorTree, VarTree,
};

impl Shown for ExprTree {
    fn show(&self, out: &mut Out) {
        put_expression(out, self);
    }
}

#[cycle(showing)]
pub fn put_expression(out: &mut Out, expression: &ExprTree) {
    match &expression.node {
        ExprNode::Number(number) => out.number(*number),
        ExprNode::Truth(true) => out.put("TRUE"),
        ExprNode::Truth(false) => out.put("FALSE"),
        ExprNode::Variable(variable) => put_variable(out, variable),
        ExprNode::Bracketed(inner) => put_within(out, "(", inner.get(), ")"),
        ExprNode::Minus(inner) => put_within(out, "[- ", inner.get(), "]"),
        ExprNode::Not(inner) => put_within(out, "[not ", inner.get(), "]"),
        ExprNode::Binary(operator, left, right) => {
            put_within(out, "[", left.get(), operator_text(*operator));
            put_within(out, "", right.get(), "]");
        }
        ExprNode::Choice(name, value) => {
            out.put("[");
            out.name(name);
            put_within(out, ": ", value.get(), "]");
        }
        ExprNode::Sequence(items) => put_items(out, items.as_slice()),
        ExprNode::Components(components) => put_components(out, components.as_slice()),
    }
}

/// An expression between two texts.
#[cycle(showing)]
fn put_within(out: &mut Out, before: &str, expression: &ExprTree, behind: &str) {
    out.put(before);
    put_expression(out, expression);
    out.put(behind);
}

#[cycle(showing)]
fn put_items(out: &mut Out, items: &[ExprTree]) {
    let mut is_first = true;
    out.put("{");
    for item in items {
        if !is_first {
            out.put(", ");
        }
        put_expression(out, item);
        is_first = false;
    }
    out.put("}");
}

#[cycle(showing)]
fn put_components(out: &mut Out, components: &[ComponentTree]) {
    let mut is_first = true;
    out.put("{");
    for component in components {
        if !is_first {
            out.put(", ");
        }
        out.name(&component.name);
        put_within(out, " = ", &component.value, "");
        is_first = false;
    }
    out.put("}");
}

#[cycle(showing)]
pub fn put_variable(out: &mut Out, variable: &VarTree) {
    out.name(&variable.name);
    put_selectors(out, variable.selectors.as_slice());
}

#[cycle(showing)]
fn put_selectors(out: &mut Out, selectors: &[SelectorTree]) {
    for selector in selectors {
        match &selector.kind {
            SelectorKind::Dot(field) => put_field(out, ".", field),
            SelectorKind::Exclamation(field) => put_field(out, "!", field),
            SelectorKind::Index(index) => put_within(out, "(", index, ")"),
        }
    }
}

fn put_field(out: &mut Out, before: &str, field: &FieldTree) {
    out.put(before);
    match field {
        FieldTree::Name(name) => out.name(name),
        FieldTree::Keyword(_, keyword) => out.keyword(*keyword),
    }
}

/// An operator with a blank on both sides.
fn operator_text(operator: Operator) -> &'static str {
    match operator {
        Operator::Or => " or ",
        Operator::OrElse => " or else ",
        Operator::Xor => " xor ",
        Operator::And => " and ",
        Operator::AndThen => " and then ",
        Operator::Relation(relation) => relation_text(relation),
        Operator::Add => " + ",
        Operator::Subtract => " - ",
        Operator::Multiply => " * ",
        Operator::Divide => " / ",
        Operator::Mod => " mod ",
        Operator::Rem => " rem ",
    }
}

/// A relation with a blank on both sides.
fn relation_text(relation: RelationOperator) -> &'static str {
    match relation {
        RelationOperator::Equal => " = ",
        RelationOperator::NotEqual => " /= ",
        RelationOperator::Less => " < ",
        RelationOperator::LessOrEqual => " <= ",
        RelationOperator::Greater => " > ",
        RelationOperator::GreaterOrEqual => " >= ",
    }
}

/// A relation with a blank behind it.
pub fn relation_before(relation: RelationOperator) -> &'static str {
    match relation {
        RelationOperator::Equal => "= ",
        RelationOperator::NotEqual => "/= ",
        RelationOperator::Less => "< ",
        RelationOperator::LessOrEqual => "<= ",
        RelationOperator::Greater => "> ",
        RelationOperator::GreaterOrEqual => ">= ",
    }
}
