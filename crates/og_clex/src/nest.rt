//! How deep a text nests: brackets that are open, and the operators, relations and selectors that count.
ghost use Rattle.std.specs.Prelude.{◌≡◌, ◌<◌, OnOk};
ghost use Rattle.og_csubset.specs.Nesting.{after_token, after_mark, opened, closed, ended, deeper};
ghost use Rattle.og_clex.specs.Views.{token_view, mark_view};
ghost use Rattle.og_clex.specs.Nests.{nest_view, IsLow};

use crate::token::{Keyword, Mark, Token};
use std::alloc::AllocError;

/// An open bracket, or the outside of all brackets: whether it is `{` or the outside, the nesting right behind it, and now.
#[derive(Clone, Copy)]
pub struct Level {
    pub is_block: bool,
    pub base: u32,
    pub depth: u32,
}

/// The innermost open bracket, the others outward, of which the outermost comes first, and whether we are in a struct.
#[derive(Drop)]
pub struct Nest {
    pub in_struct: bool,
    pub level: Level,
    pub outward: Vec<Level>,
}

impl Nest {
    /// Goes on behind the token.
    pub fn go_on(&mut self, token: &Token) -> Result<(), AllocError>
        requires { IsLow (nest_view self.old) }
        ensures { OnOk result (nest_view self.new ≡ after_token (token_view token.now) (nest_view self.old)) }
    {
        match token {
            Token::Name(_) | Token::Number(_) => {}
            Token::Operator(_) | Token::Relation(_) => self.deepen(),
            Token::Keyword(Keyword::Struct) => self.in_struct = true,
            Token::Keyword(_) => {}
            Token::Mark(mark) => return self.go_behind(*mark),
        }
        Ok(())
    }

    fn go_behind(&mut self, mark: Mark) -> Result<(), AllocError>
        requires { IsLow (nest_view self.old) }
        ensures { OnOk result (nest_view self.new ≡ after_mark (mark_view mark) (nest_view self.old)) }
    {
        match mark {
            Mark::OpenBrace => return self.open(true),
            Mark::CloseBrace => {
                self.close();
                self.in_struct = false;
            }
            Mark::OpenSquare => {
                if !self.in_struct {
                    self.deepen();
                }
                return self.open(false);
            }
            Mark::OpenRound => return self.open(false),
            Mark::CloseSquare | Mark::CloseRound => self.close(),
            Mark::Semicolon | Mark::Colon | Mark::Equals => self.end(),
            Mark::Question => {}
            Mark::Dot => self.deepen(),
        }
        Ok(())
    }

    /// Counts one to the end of the bracket, or of the expression.
    fn deepen(&mut self)
        requires { self.old.level.depth < 1000 }
        ensures { nest_view self.new ≡ deeper (nest_view self.old) }
    {
        self.level.depth += 1;
    }

    fn open(&mut self, is_block: bool) -> Result<(), AllocError>
        requires { self.old.level.depth < 1000 }
        ensures { OnOk result (nest_view self.new ≡ opened is_block (nest_view self.old)) }
    {
        self.outward.push(self.level)?;
        let depth = self.level.depth + 1;
        self.level = Level {
            is_block,
            base: depth,
            depth,
        };
        Ok(())
    }

    /// What counts in the bracket goes with it.
    fn close(&mut self)
        ensures { nest_view self.new ≡ closed (nest_view self.old) }
    {
        if let Some(level) = self.outward.pop() {
            self.level = level;
        }
    }

    /// The end of an expression, where a mark is one.
    fn end(&mut self)
        ensures { nest_view self.new ≡ ended (nest_view self.old) }
    {
        if self.level.is_block {
            self.level.depth = self.level.base;
        }
    }
}
