//! Assignments, outputs, calls, questions, answers and terminators.
ghost use Rattle.std.specs.Prelude.{◌≡◌, IfOk};
ghost use Rattle.og_reading.specs.Reading.{rest_of};
ghost use Rattle.og_parse_body.specs.Reading.{argument_at, args_at, called_at, assigned_at, assign_at, out_at, question_at, constant_at, upto_at, answer_at, label_at, dash_at, via_at, target_at, result_at, kind_at, terminator_at};

use crate::ground::{NameReader, end_of};
use og_ast::{
    AnswerTree, ArgTree, AssignTree, AssignedTree, CallTree, ConstTree, ExprTree, Name, OutTree,
    QuestionTree, TerminatorKind, TerminatorTree,
};
use og_base::Place;
use og_names::NoMemory;
use og_parse_expr::{ExprReader, expr_of, relation_sign_of, var_of};
use og_reading::{Left, Production, list_in_brackets, list_or_none, maybe};
use sqlite_items::Items;
use std::alloc::Global;

/// `assign = var ":=" assigned`
pub struct AssignReader;

impl Production for AssignReader {
    type Tree = AssignTree;

    ghost at = { assign_at };

    #[tactic(auto, unfolding(crate::specs::Reading::assign_at))]
    fn read<'a>(
        alloc: Global,
        fuel: usize,
        from: Left<'a>,
    ) -> Result<(AssignTree, Left<'a>), NoMemory> {
        let (target, from) = var_of(alloc, fuel, from.after())?;
        let (value, from) = assigned_of(alloc, fuel, from.behind())?;
        Ok((AssignTree { target, value }, from))
    }
}

/// `assigned = CALL called | expr`
#[tactic(auto, unfolding(crate::specs::Reading::assigned_at))]
fn assigned_of<'a>(
    alloc: Global,
    fuel: usize,
    from: Left<'a>,
) -> Result<(AssignedTree, Left<'a>), NoMemory>
    ensures { IfOk result (λ x. (x.0, rest_of x.1) ≡ assigned_at fuel (rest_of from.entry)) }
{
    let start = from.after();
    if from.choice() == 0 {
        let place = start.place();
        let (call, from) = called_of(alloc, fuel, start.behind())?;
        return Ok((AssignedTree::Call(place, call), from));
    }
    let (value, from) = expr_of(alloc, fuel, start)?;
    Ok((AssignedTree::Value(value), from))
}

/// `called = name [ args ]`
#[tactic(auto, unfolding(crate::specs::Reading::called_at))]
pub fn called_of<'a>(
    alloc: Global,
    fuel: usize,
    from: Left<'a>,
) -> Result<(CallTree, Left<'a>), NoMemory>
    ensures { IfOk result (λ x. (x.0, rest_of x.1) ≡ called_at fuel (rest_of from.entry)) }
{
    let start = from.after();
    let procedure = start.name(alloc)?;
    let (args, from) = maybe::<ArgsReader>(alloc, fuel, start.behind())?;
    Ok((CallTree { procedure, args }, from))
}

/// `args = "(" [ arguments ] ")"`
struct ArgsReader;

impl Production for ArgsReader {
    type Tree = Items<ArgTree>;

    ghost at = { args_at };

    #[tactic(auto, unfolding(crate::specs::Reading::args_at))]
    fn read<'a>(
        alloc: Global,
        fuel: usize,
        from: Left<'a>,
    ) -> Result<(Items<ArgTree>, Left<'a>), NoMemory> {
        let (args, from) = list_or_none::<ArgReader>(alloc, fuel, from.after().behind())?;
        Ok((args, from.behind()))
    }
}

/// `argument = expr | text`
struct ArgReader;

impl Production for ArgReader {
    type Tree = ArgTree;

    ghost at = { argument_at };

    #[tactic(auto, unfolding(crate::specs::Reading::argument_at))]
    fn read<'a>(
        alloc: Global,
        fuel: usize,
        from: Left<'a>,
    ) -> Result<(ArgTree, Left<'a>), NoMemory> {
        let start = from.after();
        if from.choice() == 0 {
            let (value, from) = expr_of(alloc, fuel, start)?;
            return Ok((ArgTree::Value(value), from));
        }
        let text = start.text(alloc)?;
        Ok((ArgTree::Text(text), start.behind()))
    }
}

/// `out = name [ "(" exprs ")" ]`
pub struct OutReader;

impl Production for OutReader {
    type Tree = OutTree;

    ghost at = { out_at };

    #[tactic(auto, unfolding(crate::specs::Reading::out_at))]
    fn read<'a>(
        alloc: Global,
        fuel: usize,
        from: Left<'a>,
    ) -> Result<(OutTree, Left<'a>), NoMemory> {
        let start = from.after();
        let signal = start.name(alloc)?;
        let (values, from) = list_in_brackets::<ExprReader>(alloc, fuel, start.behind())?;
        Ok((OutTree { signal, values }, from))
    }
}

/// `question = expr | ANY | text`
#[tactic(auto, unfolding(crate::specs::Reading::question_at))]
pub fn question_of<'a>(
    alloc: Global,
    fuel: usize,
    from: Left<'a>,
) -> Result<(QuestionTree, Left<'a>), NoMemory>
    ensures { IfOk result (λ x. (x.0, rest_of x.1) ≡ question_at fuel (rest_of from.entry)) }
{
    let start = from.after();
    match from.choice() {
        0 => {
            let (value, from) = expr_of(alloc, fuel, start)?;
            Ok((QuestionTree::Value(value), from))
        }
        1 => Ok((QuestionTree::Any(start.place()), start.behind())),
        _ => {
            let text = start.text(alloc)?;
            Ok((QuestionTree::Text(text), start.behind()))
        }
    }
}

/// `answer = constant [ ":" constant ] | relop constant`
pub struct AnswerReader;

impl Production for AnswerReader {
    type Tree = AnswerTree;

    ghost at = { λ n. answer_at };

    #[tactic(auto, unfolding(crate::specs::Reading::answer_at))]
    fn read<'a>(
        alloc: Global,
        _fuel: usize,
        from: Left<'a>,
    ) -> Result<(AnswerTree, Left<'a>), NoMemory> {
        let start = from.after();
        if from.choice() == 0 {
            let (low, from) = constant_of(alloc, start)?;
            return upto_of(alloc, low, from);
        }
        let (related, from) = relation_sign_of(start);
        let (constant, from) = constant_of(alloc, from)?;
        let answer = AnswerTree::Relation(related.place, related.relation, constant);
        Ok((answer, from))
    }
}

/// Up to another constant, or this one alone.
#[tactic(auto, unfolding(crate::specs::Reading::upto_at))]
fn upto_of<'a>(
    alloc: Global,
    low: ConstTree,
    from: Left<'a>,
) -> Result<(AnswerTree, Left<'a>), NoMemory>
    ensures { IfOk result (λ x. (x.0, rest_of x.1) ≡ upto_at low (rest_of from.entry)) }
{
    if !from.goes_on() {
        return Ok((AnswerTree::One(low), from.after()));
    }
    let (high, from) = constant_of(alloc, from.after().after().behind())?;
    Ok((AnswerTree::Range(low, high), from))
}

/// `constant = [ "-" ] number | name | TRUE | FALSE`
#[tactic(auto, unfolding(crate::specs::Reading::constant_at))]
fn constant_of<'a>(alloc: Global, from: Left<'a>) -> Result<(ConstTree, Left<'a>), NoMemory>
    ensures { IfOk result (λ x. (x.0, rest_of x.1) ≡ constant_at (rest_of from.entry)) }
{
    let start = from.after();
    let place = start.place();
    match from.choice() {
        0 => Ok((
            ConstTree::Negative(place, start.behind().number()),
            start.behind().behind(),
        )),
        1 => Ok((ConstTree::Number(place, start.number()), start.behind())),
        2 => {
            let name = start.name(alloc)?;
            Ok((ConstTree::Name(name), start.behind()))
        }
        3 => Ok((ConstTree::Truth(place, true), start.behind())),
        _ => Ok((ConstTree::Truth(place, false), start.behind())),
    }
}

/// `label = name ":"`
#[tactic(auto, unfolding(crate::specs::Reading::label_at))]
pub fn label_of<'a>(alloc: Global, from: Left<'a>) -> Result<(Name, Left<'a>), NoMemory>
    ensures { IfOk result (λ x. (x.0, rest_of x.1) ≡ label_at (rest_of from.entry)) }
{
    let start = from.after();
    let name = start.name(alloc)?;
    Ok((name, start.behind().behind()))
}

/// `terminator end`, behind its label.
#[tactic(auto, unfolding(crate::specs::Reading::terminator_at))]
pub fn terminator_of<'a>(
    alloc: Global,
    fuel: usize,
    label: Option<Name>,
    from: Left<'a>,
) -> Result<(TerminatorTree, Left<'a>), NoMemory>
    ensures { IfOk result (λ x. (x.0, rest_of x.1) ≡ terminator_at fuel label (rest_of from.entry)) }
{
    let ((place, kind), from) = kind_of(alloc, fuel, from)?;
    let (end, from) = end_of(alloc, from)?;
    let terminator = TerminatorTree {
        label,
        place,
        kind,
        end,
    };
    Ok((terminator, from))
}

/// `terminator = NEXTSTATE target | JOIN name | RETURN [ expr ] | STOP`, with the place of its keyword.
#[tactic(auto, unfolding(crate::specs::Reading::kind_at))]
fn kind_of<'a>(
    alloc: Global,
    fuel: usize,
    from: Left<'a>,
) -> Result<((Place, TerminatorKind), Left<'a>), NoMemory>
    ensures { IfOk result (λ x. (x.0, rest_of x.1) ≡ kind_at fuel (rest_of from.entry)) }
{
    let start = from.after();
    let place = start.place();
    let behind = start.behind();
    match from.choice() {
        0 => {
            let (target, from) = target_of(alloc, behind)?;
            Ok(((place, target), from))
        }
        1 => {
            let label = behind.name(alloc)?;
            Ok(((place, TerminatorKind::Join(label)), behind.behind()))
        }
        2 => {
            let (result, from) = maybe::<ResultReader>(alloc, fuel, behind)?;
            Ok(((place, TerminatorKind::Return(result)), from))
        }
        _ => Ok(((place, TerminatorKind::Stop), behind)),
    }
}

/// `target = "-" [ "*" ] | name [ VIA name ]`
#[tactic(auto, unfolding(crate::specs::Reading::target_at))]
fn target_of<'a>(alloc: Global, from: Left<'a>) -> Result<(TerminatorKind, Left<'a>), NoMemory>
    ensures { IfOk result (λ x. (x.0, rest_of x.1) ≡ target_at (rest_of from.entry)) }
{
    let start = from.after();
    if from.choice() == 0 {
        return Ok(dash_of(start.place(), start.behind()));
    }
    let state = start.name(alloc)?;
    let (via, from) = maybe::<ViaReader>(alloc, 0, start.behind())?;
    Ok((TerminatorKind::Next(state, via), from))
}

/// A dash at this place, behind it.
#[tactic(auto, unfolding(crate::specs::Reading::dash_at))]
fn dash_of(place: Place, from: Left<'_>) -> (TerminatorKind, Left<'_>)
    ensures { (result.0, rest_of result.1) ≡ dash_at place (rest_of from.entry) }
{
    if from.goes_on() {
        (
            TerminatorKind::History(place),
            from.after().after().behind(),
        )
    } else {
        (TerminatorKind::Dash(place), from.after())
    }
}

/// `via = VIA name`
struct ViaReader;

impl Production for ViaReader {
    type Tree = Name;

    ghost at = { λ n. via_at };

    #[tactic(auto, unfolding(crate::specs::Reading::via_at))]
    fn read<'a>(alloc: Global, fuel: usize, from: Left<'a>) -> Result<(Name, Left<'a>), NoMemory> {
        NameReader::read(alloc, fuel, from.after().behind())
    }
}

/// `result = expr`
struct ResultReader;

impl Production for ResultReader {
    type Tree = ExprTree;

    ghost at = { result_at };

    #[tactic(auto, unfolding(crate::specs::Reading::result_at))]
    fn read<'a>(
        alloc: Global,
        fuel: usize,
        from: Left<'a>,
    ) -> Result<(ExprTree, Left<'a>), NoMemory> {
        expr_of(alloc, fuel, from.after())
    }
}
