//! The tree of an expression from its derivation, part by part of the table. `fuel` bounds how many expressions, operands
//! and braces stand one inside the other.
ghost use Rattle.std.specs.Prelude.{◌≡◌, ◌∷◌, [], IfOk};
ghost use Rattle.og_reading.specs.Reading.{rest_of, onto, more_of, next};
ghost use Rattle.og_parse_expr.specs.Reading.{inside, right_at, step_at, operators_at, led_at, tails_at, index_at, selector_at, variable_at, bracketed_at, choice_at, named_at, after_name_at, listed_rest_at, first_value_at, first_operand_at, leading_at, item_at, component_value_at, component_at, more_component_at, items_at, after_first_name_at, inside_at, expr_at, operand_at, braces_at, var_at};

use crate::make::{
    bracketed, choice_value, field_of, joined, minus, none_of, not, one_less, plain, variable_expr,
};
use crate::operator::{Level, is_relation, operator_of};
use og_ast::{ComponentTree, ExprNode, ExprTree, Name, SelectorKind, SelectorTree, VarTree};
use og_names::NoMemory;
use og_reading::{Left, Production, single};
use sqlite_items::Items;
use std::alloc::Global;

/// `var = name { selector }`
#[tactic(auto, unfolding(crate::specs::Reading::var_at))]
pub fn var_of<'a>(
    alloc: Global,
    fuel: usize,
    from: Left<'a>,
) -> Result<(VarTree, Left<'a>), NoMemory>
    ensures { IfOk result (λ x. (x.0, rest_of x.1) ≡ var_at fuel (rest_of from.entry)) }
{
    let start = from.after();
    let name = start.name(alloc)?;
    variable_of(alloc, fuel, name, Items::new(alloc), start.behind())
}

/// Expressions, as a production.
pub struct ExprReader;

impl Production for ExprReader {
    type Tree = ExprTree;

    ghost at = { expr_at };

    fn read<'a>(
        alloc: Global,
        fuel: usize,
        from: Left<'a>,
    ) -> Result<(ExprTree, Left<'a>), NoMemory> {
        expr_of(alloc, fuel, from)
    }
}

/// `expr = name after_name | first_operand tails`
#[cycle(expression)]
#[tactic(auto, unfolding(crate::specs::Reading::inside, crate::specs::Reading::expr_by))]
pub fn expr_of<'a>(
    alloc: Global,
    fuel: usize,
    from: Left<'a>,
) -> Result<(ExprTree, Left<'a>), NoMemory>
    ensures { IfOk result (λ x. (x.0, rest_of x.1) ≡ expr_at fuel (rest_of from.entry)) }
{
    let Some(less) = one_less(fuel) else {
        return Ok(none_of(from));
    };
    let start = from.after();
    if from.choice() == 0 {
        let name = start.name(alloc)?;
        return after_name_of(alloc, less, name, start.behind());
    }
    leading_of(alloc, less, start)
}

/// `after_name = ":" expr | { selector } tails`
#[cycle(expression)]
#[tactic(auto, unfolding(crate::specs::Reading::after_name_at))]
fn after_name_of<'a>(
    alloc: Global,
    fuel: usize,
    name: Name,
    from: Left<'a>,
) -> Result<(ExprTree, Left<'a>), NoMemory>
    ensures { IfOk result (λ x. (x.0, rest_of x.1) ≡ after_name_at (inside fuel) name (rest_of from.entry)) }
{
    if from.choice() == 0 {
        return choice_of(alloc, fuel, name, from.after());
    }
    let none = Items::new(alloc);
    named_of(alloc, fuel, name, none, from.after())
}

/// The value of a choice, from its colon on.
#[cycle(expression)]
#[tactic(auto, unfolding(crate::specs::Reading::choice_at))]
fn choice_of<'a>(
    alloc: Global,
    fuel: usize,
    name: Name,
    from: Left<'a>,
) -> Result<(ExprTree, Left<'a>), NoMemory>
    ensures { IfOk result (λ x. (x.0, rest_of x.1) ≡ choice_at (inside fuel) name (rest_of from.entry)) }
{
    let (value, from) = expr_of(alloc, fuel, from.behind())?;
    Ok((choice_value(alloc, name, value)?, from))
}

/// An expression that begins with a variable of this name and these selectors, behind them.
#[cycle(expression)]
#[tactic(auto, unfolding(crate::specs::Reading::named_at))]
fn named_of<'a>(
    alloc: Global,
    fuel: usize,
    name: Name,
    selectors: Items<SelectorTree>,
    from: Left<'a>,
) -> Result<(ExprTree, Left<'a>), NoMemory>
    ensures { IfOk result (λ x. (x.0, rest_of x.1) ≡ named_at (inside fuel) name selectors (rest_of from.entry)) }
{
    let (variable, from) = variable_of(alloc, fuel, name, selectors, from)?;
    tails_of(alloc, fuel, variable_expr(variable), from)
}

/// A first operand and the operators behind it.
#[cycle(expression)]
#[tactic(auto, unfolding(crate::specs::Reading::leading_at))]
fn leading_of<'a>(
    alloc: Global,
    fuel: usize,
    from: Left<'a>,
) -> Result<(ExprTree, Left<'a>), NoMemory>
    ensures { IfOk result (λ x. (x.0, rest_of x.1) ≡ leading_at (inside fuel) (rest_of from.entry)) }
{
    let (first, from) = first_operand_of(alloc, fuel, from)?;
    tails_of(alloc, fuel, first, from)
}

/// The operators of all levels behind a first operand.
#[cycle(expression)]
#[tactic(auto, unfolding(crate::specs::Reading::tails_at))]
fn tails_of<'a>(
    alloc: Global,
    fuel: usize,
    first: ExprTree,
    from: Left<'a>,
) -> Result<(ExprTree, Left<'a>), NoMemory>
    ensures { IfOk result (λ x. (x.0, rest_of x.1) ≡ tails_at (inside fuel) first (rest_of from.entry)) }
{
    let (tree, from) = operators_of(alloc, fuel, Level::Product, first, from.after())?;
    let (tree, from) = operators_of(alloc, fuel, Level::Sum, tree, from)?;
    let (tree, from) = operators_of(alloc, fuel, Level::Relation, tree, from)?;
    let (tree, from) = operators_of(alloc, fuel, Level::Conjunction, tree, from)?;
    operators_of(alloc, fuel, Level::Disjunction, tree, from)
}

/// The operators of a level behind an operand, with their right operands.
#[cycle(expression)]
#[tactic(auto, unfolding(crate::specs::Reading::operators_at))]
fn operators_of<'a>(
    alloc: Global,
    fuel: usize,
    level: Level,
    left: ExprTree,
    from: Left<'a>,
) -> Result<(ExprTree, Left<'a>), NoMemory>
    ensures { IfOk result (λ x. (x.0, rest_of x.1) ≡ operators_at (inside fuel) level left (rest_of from.entry)) }
{
    if !is_relation(level) {
        return repeated_of(alloc, fuel, level, left, from);
    }
    if !from.goes_on() {
        return Ok((left, from.after()));
    }
    step_of(alloc, fuel, level, left, from.after())
}

/// Operators of a level as often as they stand there.
#[cycle(expression)]
#[tactic(auto, using(og_reading::proofs::Turns::loop_turns))]
fn repeated_of<'a>(
    alloc: Global,
    fuel: usize,
    level: Level,
    left: ExprTree,
    from: Left<'a>,
) -> Result<(ExprTree, Left<'a>), NoMemory>
    ensures { IfOk result (λ x. (x.0, rest_of x.1) ≡ onto (step_at (inside fuel) level) left (rest_of from.entry)) }
{
    let mut tree = left;
    let mut rest = from;
    for _ in 0..from.choices.len() {
        if !rest.goes_on() {
            return Ok((tree, rest.after()));
        }
        let (larger, more) = step_of(alloc, fuel, level, tree, rest.after())?;
        tree = larger;
        rest = more;
    }
    Ok((tree, rest))
}

/// An operator of a level and its right operand, behind a left one.
#[cycle(expression)]
#[tactic(auto, unfolding(crate::specs::Reading::step_at))]
fn step_of<'a>(
    alloc: Global,
    fuel: usize,
    level: Level,
    left: ExprTree,
    from: Left<'a>,
) -> Result<(ExprTree, Left<'a>), NoMemory>
    ensures { IfOk result (λ x. (x.0, rest_of x.1) ≡ step_at (inside fuel) level left (rest_of from.entry)) }
{
    let (sign, from) = operator_of(level, from.after());
    let (right, from) = right_of(alloc, fuel, level, from)?;
    Ok((joined(alloc, sign, left, right)?, from))
}

/// A right operand of an operator of this level.
#[cycle(expression)]
#[tactic(auto, unfolding(crate::specs::Reading::right_at, crate::specs::Reading::led_at, crate::specs::Reading::operators_at, crate::specs::Reading::step_at))]
fn right_of<'a>(
    alloc: Global,
    fuel: usize,
    level: Level,
    from: Left<'a>,
) -> Result<(ExprTree, Left<'a>), NoMemory>
    ensures { IfOk result (λ x. (x.0, rest_of x.1) ≡ right_at (inside fuel) level (rest_of from.entry)) }
{
    match level {
        Level::Product => operand_of(alloc, fuel, from),
        Level::Sum => led_of(alloc, fuel, Level::Product, from),
        Level::Relation => led_of(alloc, fuel, Level::Sum, from),
        Level::Conjunction => led_of(alloc, fuel, Level::Relation, from),
        Level::Disjunction => led_of(alloc, fuel, Level::Conjunction, from),
    }
}

/// An operand of this level with the operators of the level.
#[cycle(expression)]
#[tactic(auto, unfolding(crate::specs::Reading::led_at))]
fn led_of<'a>(
    alloc: Global,
    fuel: usize,
    level: Level,
    from: Left<'a>,
) -> Result<(ExprTree, Left<'a>), NoMemory>
    ensures { IfOk result (λ x. (x.0, rest_of x.1) ≡ led_at (inside fuel) level (rest_of from.entry)) }
{
    let (first, from) = right_of(alloc, fuel, level, from.after())?;
    operators_of(alloc, fuel, level, first, from)
}

/// `operand = name { selector } | first_operand`
#[cycle(expression)]
#[tactic(auto, unfolding(crate::specs::Reading::inside, crate::specs::Reading::operand_by))]
fn operand_of<'a>(
    alloc: Global,
    fuel: usize,
    from: Left<'a>,
) -> Result<(ExprTree, Left<'a>), NoMemory>
    ensures { IfOk result (λ x. (x.0, rest_of x.1) ≡ operand_at fuel (rest_of from.entry)) }
{
    let Some(less) = one_less(fuel) else {
        return Ok(none_of(from));
    };
    let start = from.after();
    if from.choice() != 0 {
        return first_operand_of(alloc, less, start);
    }
    let name = start.name(alloc)?;
    let (variable, from) = variable_of(alloc, less, name, Items::new(alloc), start.behind())?;
    Ok((variable_expr(variable), from))
}

/// A variable behind its name and these selectors.
#[cycle(expression)]
#[tactic(auto, unfolding(crate::specs::Reading::variable_at))]
fn variable_of<'a>(
    alloc: Global,
    fuel: usize,
    name: Name,
    selectors: Items<SelectorTree>,
    from: Left<'a>,
) -> Result<(VarTree, Left<'a>), NoMemory>
    ensures { IfOk result (λ x. (x.0, rest_of x.1) ≡ variable_at (inside fuel) name selectors (rest_of from.entry)) }
{
    let (selectors, from) = selectors_of(alloc, fuel, selectors, from)?;
    Ok((VarTree { name, selectors }, from))
}

/// Selectors, behind these.
#[cycle(expression)]
#[tactic(auto, using(og_reading::proofs::Turns::loop_turns))]
fn selectors_of<'a>(
    alloc: Global,
    fuel: usize,
    first: Items<SelectorTree>,
    from: Left<'a>,
) -> Result<(Items<SelectorTree>, Left<'a>), NoMemory>
    ensures { IfOk result (λ x. (x.0, rest_of x.1) ≡ more_of (selector_at (inside fuel)) first (rest_of from.entry)) }
{
    let mut selectors = first;
    let mut rest = from;
    for _ in 0..from.choices.len() {
        if !rest.goes_on() {
            return Ok((selectors, rest.after()));
        }
        let (selector, more) = selector_of(alloc, fuel, rest.after())?;
        selectors.push(selector)?;
        rest = more;
    }
    Ok((selectors, rest))
}

/// `selector = "." field | "!" field | index`
#[cycle(expression)]
#[tactic(auto, unfolding(crate::specs::Reading::selector_at))]
fn selector_of<'a>(
    alloc: Global,
    fuel: usize,
    from: Left<'a>,
) -> Result<(SelectorTree, Left<'a>), NoMemory>
    ensures { IfOk result (λ x. (x.0, rest_of x.1) ≡ selector_at (inside fuel) (rest_of from.entry)) }
{
    let place = from.place();
    let start = from.after();
    match from.choice() {
        0 => {
            let (field, from) = field_of(alloc, start.behind())?;
            let kind = SelectorKind::Dot(field);
            Ok((SelectorTree { place, kind }, from))
        }
        1 => {
            let (field, from) = field_of(alloc, start.behind())?;
            let kind = SelectorKind::Exclamation(field);
            Ok((SelectorTree { place, kind }, from))
        }
        _ => index_of(alloc, fuel, start),
    }
}

/// `index = "(" expr ")"`
#[cycle(expression)]
#[tactic(auto, unfolding(crate::specs::Reading::index_at))]
fn index_of<'a>(
    alloc: Global,
    fuel: usize,
    from: Left<'a>,
) -> Result<(SelectorTree, Left<'a>), NoMemory>
    ensures { IfOk result (λ x. (x.0, rest_of x.1) ≡ index_at (inside fuel) (rest_of from.entry)) }
{
    let start = from.after();
    let place = start.place();
    let (index, from) = expr_of(alloc, fuel, start.behind())?;
    let kind = SelectorKind::Index(index);
    Ok((SelectorTree { place, kind }, from.behind()))
}

/// `first_operand = first_value | bracketed`
#[cycle(expression)]
#[tactic(auto, unfolding(crate::specs::Reading::first_operand_at, crate::specs::Reading::bracketed_at))]
fn first_operand_of<'a>(
    alloc: Global,
    fuel: usize,
    from: Left<'a>,
) -> Result<(ExprTree, Left<'a>), NoMemory>
    ensures { IfOk result (λ x. (x.0, rest_of x.1) ≡ first_operand_at (inside fuel) (rest_of from.entry)) }
{
    if from.choice() == 0 {
        return first_value_of(alloc, fuel, from.after());
    }
    let start = from.after().after();
    let place = start.place();
    let (inner, from) = expr_of(alloc, fuel, start.behind())?;
    Ok((bracketed(alloc, place, inner)?, from.behind()))
}

/// `first_value = "-" operand | NOT operand | number | TRUE | FALSE | braces`
#[cycle(expression)]
#[tactic(auto, unfolding(crate::specs::Reading::first_value_at))]
fn first_value_of<'a>(
    alloc: Global,
    fuel: usize,
    from: Left<'a>,
) -> Result<(ExprTree, Left<'a>), NoMemory>
    ensures { IfOk result (λ x. (x.0, rest_of x.1) ≡ first_value_at (inside fuel) (rest_of from.entry)) }
{
    let start = from.after();
    let place = start.place();
    match from.choice() {
        0 => {
            let (operand, from) = operand_of(alloc, fuel, start.behind())?;
            Ok((minus(alloc, place, operand)?, from))
        }
        1 => {
            let (operand, from) = operand_of(alloc, fuel, start.behind())?;
            Ok((not(alloc, place, operand)?, from))
        }
        2 => Ok((
            plain(place, ExprNode::Number(start.number())),
            start.behind(),
        )),
        3 => Ok((plain(place, ExprNode::Truth(true)), start.behind())),
        4 => Ok((plain(place, ExprNode::Truth(false)), start.behind())),
        _ => braces_of(alloc, fuel, start),
    }
}

/// `braces = "{" inside "}"`
#[cycle(expression)]
#[tactic(auto, unfolding(crate::specs::Reading::inside, crate::specs::Reading::braces_by))]
fn braces_of<'a>(
    alloc: Global,
    fuel: usize,
    from: Left<'a>,
) -> Result<(ExprTree, Left<'a>), NoMemory>
    ensures { IfOk result (λ x. (x.0, rest_of x.1) ≡ braces_at fuel (rest_of from.entry)) }
{
    let Some(less) = one_less(fuel) else {
        return Ok(none_of(from));
    };
    let start = from.after();
    let place = start.place();
    let (node, from) = inside_of(alloc, less, start.behind())?;
    Ok((plain(place, node), from.behind()))
}

/// `inside = name after_first_name | leading { "," item } |` nothing
#[cycle(expression)]
#[tactic(auto, unfolding(crate::specs::Reading::inside_at))]
fn inside_of<'a>(
    alloc: Global,
    fuel: usize,
    from: Left<'a>,
) -> Result<(ExprNode, Left<'a>), NoMemory>
    ensures { IfOk result (λ x. (x.0, rest_of x.1) ≡ inside_at (inside fuel) (rest_of from.entry)) }
{
    let start = from.after();
    match from.choice() {
        0 => {
            let name = start.name(alloc)?;
            after_first_name_of(alloc, fuel, name, start.behind())
        }
        1 => {
            let (first, from) = leading_of(alloc, fuel, start.after())?;
            items_of(alloc, fuel, first, from)
        }
        _ => Ok((ExprNode::Sequence(Items::new(alloc)), start)),
    }
}

/// `after_first_name = component_value { "," component } | listed_rest { "," item }`
#[cycle(expression)]
#[tactic(auto, unfolding(crate::specs::Reading::after_first_name_at))]
fn after_first_name_of<'a>(
    alloc: Global,
    fuel: usize,
    name: Name,
    from: Left<'a>,
) -> Result<(ExprNode, Left<'a>), NoMemory>
    ensures { IfOk result (λ x. (x.0, rest_of x.1) ≡ after_first_name_at (inside fuel) name (rest_of from.entry)) }
{
    let start = from.after();
    if from.choice() == 0 {
        let (first, from) = component_of(alloc, fuel, name, start)?;
        let (components, from) = components_of(alloc, fuel, single(alloc, first)?, from)?;
        return Ok((ExprNode::Components(components), from));
    }
    let (first, from) = listed_rest_of(alloc, fuel, name, start)?;
    items_of(alloc, fuel, first, from)
}

/// `listed_rest = ":" expr | selector { selector } tails | tails`
#[cycle(expression)]
#[tactic(auto, unfolding(crate::specs::Reading::listed_rest_at))]
fn listed_rest_of<'a>(
    alloc: Global,
    fuel: usize,
    name: Name,
    from: Left<'a>,
) -> Result<(ExprTree, Left<'a>), NoMemory>
    ensures { IfOk result (λ x. (x.0, rest_of x.1) ≡ listed_rest_at (inside fuel) name (rest_of from.entry)) }
{
    let start = from.after();
    match from.choice() {
        0 => choice_of(alloc, fuel, name, start),
        1 => {
            let (first, from) = selector_of(alloc, fuel, start)?;
            named_of(alloc, fuel, name, single(alloc, first)?, from)
        }
        _ => {
            let selectors = Items::new(alloc);
            let variable = VarTree { name, selectors };
            tails_of(alloc, fuel, variable_expr(variable), start)
        }
    }
}

/// `item = name listed_rest | first_operand tails`
#[cycle(expression)]
#[tactic(auto, unfolding(crate::specs::Reading::item_at))]
fn item_of<'a>(alloc: Global, fuel: usize, from: Left<'a>) -> Result<(ExprTree, Left<'a>), NoMemory>
    ensures { IfOk result (λ x. (x.0, rest_of x.1) ≡ item_at (inside fuel) (rest_of from.entry)) }
{
    let start = from.after();
    if from.choice() == 0 {
        let name = start.name(alloc)?;
        return listed_rest_of(alloc, fuel, name, start.behind());
    }
    leading_of(alloc, fuel, start)
}

/// Items behind a first one.
#[cycle(expression)]
#[tactic(auto, unfolding(crate::specs::Reading::items_at), using(og_reading::proofs::Turns::loop_turns))]
fn items_of<'a>(
    alloc: Global,
    fuel: usize,
    first: ExprTree,
    from: Left<'a>,
) -> Result<(ExprNode, Left<'a>), NoMemory>
    ensures { IfOk result (λ x. (x.0, rest_of x.1) ≡ items_at (inside fuel) first (rest_of from.entry)) }
{
    let (items, from) = more_items_of(alloc, fuel, single(alloc, first)?, from)?;
    Ok((ExprNode::Sequence(items), from))
}

/// Items behind these.
#[cycle(expression)]
#[tactic(auto, using(og_reading::proofs::Turns::loop_turns))]
fn more_items_of<'a>(
    alloc: Global,
    fuel: usize,
    first: Items<ExprTree>,
    from: Left<'a>,
) -> Result<(Items<ExprTree>, Left<'a>), NoMemory>
    ensures { IfOk result (λ x. (x.0, rest_of x.1) ≡ more_of (next (item_at (inside fuel))) first (rest_of from.entry)) }
{
    let mut items = first;
    let mut rest = from;
    for _ in 0..from.choices.len() {
        if !rest.goes_on() {
            return Ok((items, rest.after()));
        }
        let (item, more) = item_of(alloc, fuel, rest.after().after().behind())?;
        items.push(item)?;
        rest = more;
    }
    Ok((items, rest))
}

/// A component of this name, behind it.
#[cycle(expression)]
#[tactic(auto, unfolding(crate::specs::Reading::component_at))]
fn component_of<'a>(
    alloc: Global,
    fuel: usize,
    name: Name,
    from: Left<'a>,
) -> Result<(ComponentTree, Left<'a>), NoMemory>
    ensures { IfOk result (λ x. (x.0, rest_of x.1) ≡ component_at (inside fuel) name (rest_of from.entry)) }
{
    let (value, from) = component_value_of(alloc, fuel, from)?;
    Ok((ComponentTree { name, value }, from))
}

/// `component_value = name after_name | first_value tails`
#[cycle(expression)]
#[tactic(auto, unfolding(crate::specs::Reading::component_value_at))]
fn component_value_of<'a>(
    alloc: Global,
    fuel: usize,
    from: Left<'a>,
) -> Result<(ExprTree, Left<'a>), NoMemory>
    ensures { IfOk result (λ x. (x.0, rest_of x.1) ≡ component_value_at (inside fuel) (rest_of from.entry)) }
{
    let start = from.after();
    if from.choice() == 0 {
        let name = start.name(alloc)?;
        return after_name_of(alloc, fuel, name, start.behind());
    }
    let (first, from) = first_value_of(alloc, fuel, start)?;
    tails_of(alloc, fuel, first, from)
}

/// Components behind these.
#[cycle(expression)]
#[tactic(auto, using(og_reading::proofs::Turns::loop_turns))]
fn components_of<'a>(
    alloc: Global,
    fuel: usize,
    first: Items<ComponentTree>,
    from: Left<'a>,
) -> Result<(Items<ComponentTree>, Left<'a>), NoMemory>
    ensures { IfOk result (λ x. (x.0, rest_of x.1) ≡ more_of (more_component_at (inside fuel)) first (rest_of from.entry)) }
{
    let mut components = first;
    let mut rest = from;
    for _ in 0..from.choices.len() {
        if !rest.goes_on() {
            return Ok((components, rest.after()));
        }
        let (component, more) = more_component_of(alloc, fuel, rest.after())?;
        components.push(component)?;
        rest = more;
    }
    Ok((components, rest))
}

/// `"," name component_value`
#[cycle(expression)]
#[tactic(auto, unfolding(crate::specs::Reading::more_component_at))]
fn more_component_of<'a>(
    alloc: Global,
    fuel: usize,
    from: Left<'a>,
) -> Result<(ComponentTree, Left<'a>), NoMemory>
    ensures { IfOk result (λ x. (x.0, rest_of x.1) ≡ more_component_at (inside fuel) (rest_of from.entry)) }
{
    let start = from.after().behind();
    let name = start.name(alloc)?;
    component_of(alloc, fuel, name, start.behind())
}
