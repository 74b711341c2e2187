//! The code of expressions.
ghost use Rattle.std.specs.Prelude.{◌≡◌, cond, pos, IfOk};
ghost use Rattle.std.specs.Option.{option_copied};
ghost use Rattle.og_model.specs.declared.Node.{out-Node};
ghost use Rattle.og_ranges.specs.Calls.{data_of, interval_if};
ghost use Rattle.og_ranges.specs.Ranges.{range_of};
ghost use Rattle.og_expr.specs.Lowering.{lowered, lowered_within, lowered_node, start_of, operated as operated_value, is_simple as is_simple_expression, is_simple_within as is_simple_to, is_simple_node as is_simple_inside, is_cell as is_cell_target, is_cell_sort as is_sort_of_cell};
ghost use Rattle.og_expr.specs.Calls.{around_of};

use crate::instructions::{literal, slot_of, sum_of};
use crate::operators::{
    divisor, is_tested, joined, may_be_negative, plain, settled, size_between, unary,
};
use crate::{Lowered, Operand, Surroundings};
use og_model::{BinaryOp, Expr, Node, Target};
use og_names::NoMemory;
use og_ranges::{Declared, Interval, range, sort_of_target};
use og_types::Sort;
use std::alloc::Global;

/// How deep an expression is at most.
const DEPTH: u32 = 64;

/// The code of an expression at a place, where the temporaries below a level are held.
#[tactic(auto, unfolding(crate::specs::Lowering::lowered))]
pub fn lower_at(
    alloc: Global,
    around: Surroundings,
    level: usize,
    at: usize,
    e: &Expr,
) -> Result<Lowered, NoMemory>
    ensures { IfOk result (λ made. made ≡ lowered (around_of around.entry) level at e.now) }
{
    lower_within(alloc, DEPTH, around, level, at, e)
}

/// The same of an expression of at most this depth.
#[cycle(lowering)]
fn lower_within(
    alloc: Global,
    depth: u32,
    around: Surroundings,
    level: usize,
    at: usize,
    e: &Expr,
) -> Result<Lowered, NoMemory>
    ensures { IfOk result (λ made. made ≡ lowered_within depth (around_of around.entry) level at e.now) }
{
    if depth == 0 {
        return Ok(plain(alloc, literal(0)));
    }
    lower_node(alloc, depth - 1, around, level, at, &e.node)
}

#[cycle(lowering)]
fn lower_node(
    alloc: Global,
    depth: u32,
    around: Surroundings,
    level: usize,
    at: usize,
    node: &Node,
) -> Result<Lowered, NoMemory>
    ensures { IfOk result (λ made. made ≡ lowered_node (lowered_within depth (around_of around.entry)) (λ x. interval_if (range_of (data_of around.entry.declared) x)) (around_of around.entry) level at (out-Node node.now)) }
{
    match node {
        Node::Number(z) => Ok(plain(alloc, literal(*z))),
        Node::Truth(truth) => Ok(plain(alloc, literal(if *truth { 1 } else { 0 }))),
        Node::Item(k) => Ok(plain(alloc, literal(i128::from(*k)))),
        Node::Get(target) => {
            let slot = slot_of(around, target.variable);
            Ok(plain(alloc, Operand::Variable(slot)))
        }
        Node::Unary(op, inner) => {
            let x = lower_within(alloc, depth, around, level, at, inner.get())?;
            unary(alloc, around, level, *op, x)
        }
        Node::Binary(op, left, right) => {
            let x = lower_within(alloc, depth, around, level, at, left.get())?;
            let x = settled(alloc, around, level, x)?;
            let start = start_of_right(at, *op, &x)?;
            let above = sum_of(level, 1)?;
            let y = lower_within(alloc, depth, around, above, start, right.get())?;
            let intervals = (
                interval_of(around.declared, left.get()),
                interval_of(around.declared, right.get()),
            );
            operated(alloc, around, level, at, *op, intervals, x, y)
        }
        _ => Ok(plain(alloc, literal(0))),
    }
}

/// Where the right operand's code begins.
fn start_of_right(at: usize, op: BinaryOp, left: &Lowered) -> Result<usize, NoMemory>
    ensures { IfOk result (λ start. start ≡ start_of at op left.now) }
{
    sum_of(at, sum_of(left.code.len(), size_between(op))?)
}

/// Two operands under an operator, the left one in the temporary of its level. A divisor is tested where its interval
/// has 0.
fn operated(
    alloc: Global,
    around: Surroundings,
    level: usize,
    at: usize,
    op: BinaryOp,
    intervals: (Option<Interval>, Option<Interval>),
    left: Lowered,
    right: Lowered,
) -> Result<Lowered, NoMemory>
    ensures { IfOk result (λ made. made ≡ operated_value (around_of around.entry) level at op intervals.0 intervals.1 left right) }
{
    let start = start_of_right(at, op, &left)?;
    let tested = is_tested(op, intervals.1);
    let negative = may_be_negative(intervals.0);
    let right = divisor(alloc, around, sum_of(level, 1)?, start, tested, right)?;
    joined(alloc, around, level, at, op, negative, left, right)
}

/// The interval of an expression, where no part of it violates a rule.
fn interval_of(declared: Declared, e: &Expr) -> Option<Interval>
    ensures { result ≡ interval_if (range_of (data_of declared.entry) e.now) }
{
    let mut first = None;
    range(declared, e, &mut first)
}

/// Whether an expression has code so far: its variables have no selectors and one cell, and no part of it is a
/// structured value, a length or the number of an alternative.
#[tactic(auto, unfolding(crate::specs::Lowering::is_simple))]
pub fn is_simple(declared: Declared, e: &Expr) -> bool
    ensures { result ≡ is_simple_expression (data_of declared.entry) e.now }
{
    is_simple_within(DEPTH, declared, e)
}

#[cycle(simple)]
fn is_simple_within(depth: u32, declared: Declared, e: &Expr) -> bool
    ensures { result ≡ is_simple_to depth (data_of declared.entry) e.now }
{
    if depth == 0 {
        return false;
    }
    is_simple_node(depth - 1, declared, &e.node)
}

#[cycle(simple)]
fn is_simple_node(depth: u32, declared: Declared, node: &Node) -> bool
    ensures { result ≡ is_simple_inside (is_simple_to depth (data_of declared.entry)) (data_of declared.entry) (out-Node node.now) }
{
    match node {
        Node::Number(_) | Node::Truth(_) | Node::Item(_) => true,
        Node::Get(target) => is_cell(declared, target),
        Node::Unary(_, inner) => is_simple_within(depth, declared, inner.get()),
        Node::Binary(_, left, right) => {
            is_simple_within(depth, declared, left.get())
                && is_simple_within(depth, declared, right.get())
        }
        _ => false,
    }
}

/// A whole variable of one cell.
fn is_cell(declared: Declared, target: &Target) -> bool
    ensures { result ≡ is_cell_target (data_of declared.entry) target.now }
{
    target.path.is_empty() && is_cell_sort(sort_of_target(declared, target))
}

fn is_cell_sort(sort: Option<&Sort>) -> bool
    ensures { result ≡ is_sort_of_cell (option_copied sort.entry) }
{
    match sort {
        Some(Sort::Int { .. }) => true,
        Some(Sort::Bool) => true,
        Some(Sort::Enumerated { .. }) => true,
        _ => false,
    }
}
