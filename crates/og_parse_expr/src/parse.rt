//! The public call: an expression from its tokens.
ghost use Rattle.std.specs.Prelude.{◌≡◌, IfOk, IfErr, IsTrue};
ghost use Rattle.og_lexer.specs.Texts.{EndsOnce};
ghost use Rattle.og_ast.specs.declared.expression.ExprTree.{ExprTree};
ghost use Rattle.og_reading.specs.Reading.{rest_of};
ghost use Rattle.og_grammar.specs.Predictive.{is_predictive};
ghost use Rattle.og_reading.specs.declared.kind.TheConstants.{LAST};
ghost use Rattle.og_reading.specs.Sentences.{lacks, Refuses, SaysWrong};
ghost use Rattle.og_parse_expr.specs.declared.table.TheConstants.{EXPRESSION, EXPRESSION_PARTS};
ghost use Rattle.og_parse_expr.specs.Reading.{expression_of};
ghost use Rattle.og_parse_expr.specs.Grammar.{IsExpr, IsExpression};

use crate::expression::expr_of;
use crate::table::{EXPRESSION, EXPRESSION_PARTS};
use og_ast::ExprTree;
use og_base::ModelError;
use og_lexer::Spanned;
use og_names::NoMemory;
use og_reading::{Left, choices_of};
use std::alloc::Global;

/// The expression of the tokens of a file that holds nothing else, in time linear in their number. A violation is the first
/// of class S: S1 at the first token that no expression has there, S2 at the first that nests more than 64 deep. At one
/// token S1 comes first.
pub fn parse_expr(alloc: Global, tokens: &[Spanned]) -> Result<ExprTree, ModelError>
    requires { EndsOnce tokens.now }
    // The tokens are those of this expression.
    ensures found { IfOk result (λ e. IsExpression e tokens.now) }
    // They are those of no other one.
    ensures only { IfOk result (λ e. (other : ExprTree) → IsExpression other tokens.now → other ≡ e) }
    // A violation is the first of class S, and then they are those of none.
    ensures broken { IfErr result (Refuses EXPRESSION IsExpr tokens.now) }
    // S1 stands at the first token such that no text begins with the tokens up to and including it.
    ensures wrong { IfErr result (SaysWrong IsExpr tokens.now) }
{
    can_be_read();
    match choices_of(alloc, &EXPRESSION, &EXPRESSION_PARTS, tokens) {
        Ok(choices) => {
            let tree = expression_by(alloc, choices.as_slice(), tokens)?;
            Ok(tree)
        }
        Err(error) => Err(error),
    }
}

/// The table of expressions can be read from left to right with one token ahead, and has no end of a file in it.
fn can_be_read()
    ensures predictive { IsTrue (is_predictive EXPRESSION EXPRESSION_PARTS LAST) }
    ensures apart { IsTrue (lacks LAST EXPRESSION) }
{}

/// The expression by the choices of a derivation.
fn expression_by(alloc: Global, choices: &[u8], tokens: &[Spanned]) -> Result<ExprTree, NoMemory>
    ensures { IfOk result (λ e. e ≡ expression_of choices.now tokens.now) }
{
    let left = Left { choices, tokens };
    let (tree, _) = expr_of(alloc, choices.len(), left.after())?;
    Ok(tree)
}
