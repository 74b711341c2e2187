//! The intervals of expressions, and the first place where there is none (G1 and G5).
ghost use Rattle.std.specs.Prelude.{◌≡◌, IsTrue, cond, pos, Some, None};
ghost use Rattle.std.specs.Option.{option_copied};
ghost use Rattle.og_base.specs.Order.{first_from};
ghost use Rattle.og_types.specs.Table.{is_table, is_empty};
ghost use Rattle.og_model.specs.declared.Node.{out-Node};
ghost use Rattle.og_model.specs.declared.Select.{out-Select};
ghost use Rattle.og_ranges.specs.Intervals.{IsInterval};
ghost use Rattle.og_ranges.specs.Ranges.{range_of, range_within, range_of_node, point, tested as tested_range, by_operator as range_by_operator, by_sign as range_by_sign, in_path, in_selector, in_each, bounds_of as bounds_of_sort, lengths_of as lengths_of_sort, violates};
ghost use Rattle.og_ranges.specs.Calls.{interval_if, data_of};

use crate::Interval;
use crate::operations::{add, div, modulo, mul, neg, rem, sub};
use crate::targets::{Declared, sort_of_target};
use og_base::{Place, Rule, Violation, sooner};
use og_model::{BinaryOp, Expr, Node, Select, Target, UnaryOp};
use og_types::Sort;

/// How deep an expression is at most.
const DEPTH: u32 = 64;

/// The interval of an expression, 0 to 0 where it is no number, and None where a part of it violates G1 or G5. The first
/// violation so far is kept in `first`.
#[tactic(auto, unfolding(crate::specs::Ranges::range_of))]
pub fn range(declared: Declared, e: &Expr, first: &mut Option<Violation>) -> Option<Interval>
    ensures interval { result ≡ interval_if (range_of (data_of declared.entry) e.now) }
    ensures first { first.new ≡ first_from first.old (range_of (data_of declared.entry) e.now).violations }
{
    // What is read here is what every table of types keeps.
    let _types = declared.types.len();
    range_within(DEPTH, declared, e, first)
}

/// The same of an expression of at most this depth.
#[cycle(ranges)]
#[tactic(auto, using(crate::proofs::Called::calls))]
fn range_within(
    depth: u32,
    declared: Declared,
    e: &Expr,
    first: &mut Option<Violation>,
) -> Option<Interval>
    requires table { IsTrue (is_table declared.types.now) }
    ensures interval { result ≡ interval_if (range_within depth (data_of declared.entry) e.now) }
    ensures first { first.new ≡ first_from first.old (range_within depth (data_of declared.entry) e.now).violations }
{
    if depth == 0 {
        return Some(nothing());
    }
    range_of_node(depth - 1, declared, e.place, &e.node, first)
}

#[cycle(ranges)]
#[tactic(auto, using(crate::proofs::Called::calls))]
fn range_of_node(
    depth: u32,
    declared: Declared,
    place: Place,
    node: &Node,
    first: &mut Option<Violation>,
) -> Option<Interval>
    requires table { IsTrue (is_table declared.types.now) }
    ensures interval { result ≡ interval_if (range_of_node (range_within depth (data_of declared.entry)) (data_of declared.entry) place (out-Node node.now)) }
    ensures first { first.new ≡ first_from first.old (range_of_node (range_within depth (data_of declared.entry)) (data_of declared.entry) place (out-Node node.now)).violations }
{
    match node {
        Node::Number(z) => tested(place, Interval { lo: *z, hi: *z }, first),
        Node::Truth(_) | Node::Item(_) => Some(nothing()),
        Node::Get(target) => {
            let kept = indices_kept(depth, declared, target, first);
            given_if(kept, bounds_of(sort_of_target(declared, target)))
        }
        Node::Length(target) => {
            let kept = indices_kept(depth, declared, target, first);
            given_if(kept, lengths_of(sort_of_target(declared, target)))
        }
        Node::Present(target) => {
            let kept = indices_kept(depth, declared, target, first);
            given_if(kept, nothing())
        }
        Node::Unary(op, e) => {
            let inner = range_within(depth, declared, e.get(), first);
            by_sign(place, *op, inner?, first)
        }
        Node::Binary(op, left, right) => {
            let a = range_within(depth, declared, left.get(), first);
            let b = range_within(depth, declared, right.get(), first);
            by_operator(place, *op, a?, b?, first)
        }
        Node::Sequence(es) | Node::SeqOf(es) => {
            let kept = each_kept(depth, declared, es.as_slice(), first);
            given_if(kept, nothing())
        }
        Node::Choice(_, e) => {
            let inner = range_within(depth, declared, e.get(), first);
            given_if(inner.is_some(), nothing())
        }
    }
}

/// Whether no index of a target violates a rule.
#[cycle(ranges)]
#[tactic(auto, using(crate::proofs::Called::calls))]
fn indices_kept(
    depth: u32,
    declared: Declared,
    target: &Target,
    first: &mut Option<Violation>,
) -> bool
    requires table { IsTrue (is_table declared.types.now) }
    ensures kept { result ≡ is_empty (in_path (range_within depth (data_of declared.entry)) target.now) }
    ensures first { first.new ≡ first_from first.old (in_path (range_within depth (data_of declared.entry)) target.now) }
{
    let mut kept = true;
    for select in target.path.as_slice() {
        let own = index_kept(depth, declared, select, first);
        kept = kept & own;
    }
    kept
}

/// Whether the index of a selector violates no rule, where it has one.
#[cycle(ranges)]
#[tactic(auto, using(crate::proofs::Called::calls))]
fn index_kept(
    depth: u32,
    declared: Declared,
    select: &Select,
    first: &mut Option<Violation>,
) -> bool
    requires table { IsTrue (is_table declared.types.now) }
    ensures kept { result ≡ is_empty (in_selector (range_within depth (data_of declared.entry)) (out-Select select.now)) }
    ensures first { first.new ≡ first_from first.old (in_selector (range_within depth (data_of declared.entry)) (out-Select select.now)) }
{
    match select {
        Select::At(index) => range_within(depth, declared, index, first).is_some(),
        _ => true,
    }
}

/// Whether none of the expressions violates a rule.
#[cycle(ranges)]
#[tactic(auto, using(crate::proofs::Called::calls))]
fn each_kept(depth: u32, declared: Declared, es: &[Expr], first: &mut Option<Violation>) -> bool
    requires table { IsTrue (is_table declared.types.now) }
    ensures kept { result ≡ is_empty (in_each (range_within depth (data_of declared.entry)) es.now) }
    ensures first { first.new ≡ first_from first.old (in_each (range_within depth (data_of declared.entry)) es.now) }
{
    let mut kept = true;
    for e in es {
        let inner = range_within(depth, declared, e, first);
        kept = kept & inner.is_some();
    }
    kept
}

/// What stands for the interval of an expression that is no number.
fn nothing() -> Interval
    ensures { result ≡ point (pos 0) }
{
    Interval { lo: 0, hi: 0 }
}

fn given_if(kept: bool, interval: Interval) -> Option<Interval>
    ensures { result ≡ cond kept (Some interval) None }
{
    if kept { Some(interval) } else { None }
}

/// The bounds of a type of whole numbers.
fn bounds_of(sort: Option<&Sort>) -> Interval
    ensures { result ≡ bounds_of_sort (option_copied sort.entry) }
{
    match sort {
        Some(Sort::Int { lo, hi }) => Interval {
            lo: i128::from(*lo),
            hi: i128::from(*hi),
        },
        _ => nothing(),
    }
}

/// The lengths of the sequences of items of a type.
fn lengths_of(sort: Option<&Sort>) -> Interval
    ensures { result ≡ lengths_of_sort (option_copied sort.entry) }
{
    match sort {
        Some(Sort::SeqOf { lo, hi, .. }) => Interval {
            lo: i128::from(*lo),
            hi: i128::from(*hi),
        },
        _ => nothing(),
    }
}

/// G1 where an interval passes 64 bits.
fn tested(place: Place, a: Interval, first: &mut Option<Violation>) -> Option<Interval>
    ensures interval { result ≡ interval_if (tested_range place a) }
    ensures first { first.new ≡ first_from first.old (tested_range place a).violations }
{
    if i128::from(i64::MIN) <= a.lo && a.hi <= i128::from(i64::MAX) {
        return Some(a);
    }
    violate(Rule::G1, place, first)
}

fn violate(rule: Rule, place: Place, first: &mut Option<Violation>) -> Option<Interval>
    ensures interval { result ≡ interval_if (violates rule place) }
    ensures first { first.new ≡ first_from first.old (violates rule place).violations }
{
    *first = sooner(*first, Violation { rule, place });
    None
}

fn by_sign(
    place: Place,
    op: UnaryOp,
    a: Interval,
    first: &mut Option<Violation>,
) -> Option<Interval>
    requires { IsInterval a }
    ensures interval { result ≡ interval_if (range_by_sign place op a) }
    ensures first { first.new ≡ first_from first.old (range_by_sign place op a).violations }
{
    match op {
        UnaryOp::Minus => tested(place, neg(a), first),
        UnaryOp::Not => Some(nothing()),
    }
}

fn by_operator(
    place: Place,
    op: BinaryOp,
    a: Interval,
    b: Interval,
    first: &mut Option<Violation>,
) -> Option<Interval>
    requires left { IsInterval a }
    requires right { IsInterval b }
    ensures interval { result ≡ interval_if (range_by_operator place op a b) }
    ensures first { first.new ≡ first_from first.old (range_by_operator place op a b).violations }
{
    match op {
        BinaryOp::Add => tested(place, add(a, b), first),
        BinaryOp::Sub => tested(place, sub(a, b), first),
        BinaryOp::Mul => tested(place, mul(a, b), first),
        BinaryOp::Div => tested(place, div(a, b), first),
        BinaryOp::Mod | BinaryOp::Rem if b.lo < 0 => violate(Rule::G5, place, first),
        BinaryOp::Mod => tested(place, modulo(a, b), first),
        BinaryOp::Rem => tested(place, rem(a, b), first),
        _ => Some(nothing()),
    }
}
