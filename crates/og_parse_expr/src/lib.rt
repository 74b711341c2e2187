//! Expressions of SDL/PR (Z.101 clause 12).
#![tactic(auto)]

mod expression;
mod make;
mod operator;
mod parse;
mod part;
mod table;

pub use expression::{ExprReader, expr_of, var_of};
pub use make::one_less;
pub use operator::{Related, relation_sign_of};
pub use parse::parse_expr;
pub use table::{EXPRESSION, EXPRESSION_PARTS, LAST};
