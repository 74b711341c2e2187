//! Operators, each with its place.
ghost use Rattle.std.specs.Prelude.{◌≡◌};
ghost use Rattle.og_reading.specs.Reading.{rest_of};
ghost use Rattle.og_parse_expr.specs.Reading.{sign_as, product_operator_at, sum_operator_at, relation_as, relation_sign_at, relation_operator_at, with_word, and_operator_at, or_operator_at, operator_at, is_relation};

use og_ast::{Operator, RelationOperator};
use og_base::Place;
use og_reading::Left;

/// The levels of operators, from the innermost.
#[derive(Clone, Copy, Debug, PartialEq, Eq)]
pub enum Level {
    Product,
    Sum,
    Relation,
    Conjunction,
    Disjunction,
}

/// Relations stand alone; of the operators of each other level any number stand one behind the other.
pub fn is_relation(level: Level) -> bool
    ensures { result ≡ is_relation level }
{
    match level {
        Level::Relation => true,
        Level::Product | Level::Sum | Level::Conjunction | Level::Disjunction => false,
    }
}

/// An operator and the place where it stands.
#[derive(Clone, Copy, Debug, PartialEq, Eq)]
pub struct Sign {
    pub operator: Operator,
    pub place: Place,
}

/// A relation and the place where it stands.
#[derive(Clone, Copy, Debug, PartialEq, Eq)]
pub struct Related {
    pub relation: RelationOperator,
    pub place: Place,
}

/// An operator of this level.
pub fn operator_of(level: Level, from: Left<'_>) -> (Sign, Left<'_>)
    ensures { (result.0, rest_of result.1) ≡ operator_at level (rest_of from.entry) }
{
    match level {
        Level::Product => product_operator_of(from),
        Level::Sum => sum_operator_of(from),
        Level::Relation => relation_operator_of(from),
        Level::Conjunction => and_operator_of(from),
        Level::Disjunction => or_operator_of(from),
    }
}

/// This operator stands in front.
fn sign_as(operator: Operator, from: Left<'_>) -> (Sign, Left<'_>)
    ensures { (result.0, rest_of result.1) ≡ sign_as operator (rest_of from.entry) }
{
    let place = from.place();
    (Sign { operator, place }, from.behind())
}

#[tactic(auto, unfolding(crate::specs::Reading::product_operator_at))]
fn product_operator_of(from: Left<'_>) -> (Sign, Left<'_>)
    ensures { (result.0, rest_of result.1) ≡ product_operator_at (rest_of from.entry) }
{
    let start = from.after();
    match from.choice() {
        0 => sign_as(Operator::Multiply, start),
        1 => sign_as(Operator::Divide, start),
        2 => sign_as(Operator::Mod, start),
        _ => sign_as(Operator::Rem, start),
    }
}

#[tactic(auto, unfolding(crate::specs::Reading::sum_operator_at))]
fn sum_operator_of(from: Left<'_>) -> (Sign, Left<'_>)
    ensures { (result.0, rest_of result.1) ≡ sum_operator_at (rest_of from.entry) }
{
    match from.choice() {
        0 => sign_as(Operator::Add, from.after()),
        _ => sign_as(Operator::Subtract, from.after()),
    }
}

#[tactic(auto, unfolding(crate::specs::Reading::relation_operator_at))]
fn relation_operator_of(from: Left<'_>) -> (Sign, Left<'_>)
    ensures { (result.0, rest_of result.1) ≡ relation_operator_at (rest_of from.entry) }
{
    let (related, from) = relation_sign_of(from);
    let sign = Sign {
        operator: Operator::Relation(related.relation),
        place: related.place,
    };
    (sign, from)
}

/// A relation in front.
#[tactic(auto, unfolding(crate::specs::Reading::relation_sign_at))]
pub fn relation_sign_of(from: Left<'_>) -> (Related, Left<'_>)
    ensures { (result.0, rest_of result.1) ≡ relation_sign_at (rest_of from.entry) }
{
    let start = from.after();
    match from.choice() {
        0 => relation_as(RelationOperator::Equal, start),
        1 => relation_as(RelationOperator::NotEqual, start),
        2 => relation_as(RelationOperator::Less, start),
        3 => relation_as(RelationOperator::LessOrEqual, start),
        4 => relation_as(RelationOperator::Greater, start),
        _ => relation_as(RelationOperator::GreaterOrEqual, start),
    }
}

/// This relation stands in front.
fn relation_as(relation: RelationOperator, from: Left<'_>) -> (Related, Left<'_>)
    ensures { (result.0, rest_of result.1) ≡ relation_as relation (rest_of from.entry) }
{
    let place = from.place();
    (Related { relation, place }, from.behind())
}

/// The one operator, or the other where a word stands behind it.
fn with_word(without: Operator, with: Operator, place: Place, from: Left<'_>) -> (Sign, Left<'_>)
    ensures { (result.0, rest_of result.1) ≡ with_word without «with» place (rest_of from.entry) }
{
    if from.goes_on() {
        let sign = Sign {
            operator: with,
            place,
        };
        (sign, from.after().after().behind())
    } else {
        let sign = Sign {
            operator: without,
            place,
        };
        (sign, from.after())
    }
}

#[tactic(auto, unfolding(crate::specs::Reading::and_operator_at))]
fn and_operator_of(from: Left<'_>) -> (Sign, Left<'_>)
    ensures { (result.0, rest_of result.1) ≡ and_operator_at (rest_of from.entry) }
{
    let start = from.after();
    with_word(
        Operator::And,
        Operator::AndThen,
        start.place(),
        start.behind(),
    )
}

#[tactic(auto, unfolding(crate::specs::Reading::or_operator_at))]
fn or_operator_of(from: Left<'_>) -> (Sign, Left<'_>)
    ensures { (result.0, rest_of result.1) ≡ or_operator_at (rest_of from.entry) }
{
    let start = from.after();
    match from.choice() {
        0 => with_word(
            Operator::Or,
            Operator::OrElse,
            start.place(),
            start.behind(),
        ),
        _ => sign_as(Operator::Xor, start),
    }
}
