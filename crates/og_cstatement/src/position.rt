//! Where a run is.
#![tactic(auto, using(crate::proofs::Moving::moving))]

ghost use Rattle.std.specs.Prelude.{◌≡◌, ◌≤◌, ◌<◌, IsTrue, IfOk, List, [], vec_capacity};
ghost use Rattle.og_cstatement.specs.Falling.{falls, calls_standing};

use og_model::StuckRule;
use og_names::NoMemory;
use std::alloc::Global;

/// A function and the place of its next statement, by their numbers.
#[derive(Clone, Copy, Debug, PartialEq, Eq)]
pub struct Call {
    pub function: usize,
    pub place: usize,
}

/// Whether a run is in a function, at its end, or where it cannot go on.
#[derive(Clone, Copy, Debug, PartialEq, Eq)]
pub enum Standing {
    Running(Call),
    Idle,
    Stuck(StuckRule),
}

/// Where a run is, in a program of so many functions. The callers wait for a call to return, the innermost last. A function calls
/// earlier ones only, so there is room for all callers from the beginning on.
#[derive(Drop)]
pub struct Position {
    pub functions: usize,
    pub standing: Standing,
    pub callers: Vec<Call>,
    ghost room: { functions ≤ vec_capacity callers },
    ghost falling: { IsTrue (falls functions (calls_standing standing callers.items)) },
}

impl Position {
    ghost use Rattle.og_ir.specs.Cells.{Cells};
    ghost use Rattle.og_cstatement.specs.Positions.{config_of, config_by};
    ghost use Rattle.og_cstatement.specs.Effects.{shifted, entered, left, IsNext, InFunction, IsRunning};

    /// A run of a program of so many functions, before its first stimulus.
    pub fn new(alloc: Global, functions: usize) -> Result<Position, NoMemory>
        ensures standing { IfOk result (λ p. p.standing ≡ Standing.Idle) }
        ensures functions { IfOk result (λ p. p.functions ≡ functions) }
    {
        let callers = Vec::with_capacity(alloc, functions)?;
        Ok(Position {
            functions,
            standing: Standing::Idle,
            callers,
        })
    }

    /// Begins at a function.
    pub fn begin(&mut self, function: usize)
        requires { function < self.old.functions }
        ensures moved { (g : List Cells) → config_of g self.new ≡ config_by g (Standing.Running (record { function = function; place = 0 })) [] }
        ensures functions { self.new.functions ≡ self.old.functions }
    {
        self.callers.clear();
        self.standing = Standing::Running(Call { function, place: 0 });
    }

    /// Stands where a run cannot go on.
    pub fn stop(&mut self, rule: StuckRule)
        ensures standing { self.new.standing ≡ Standing.Stuck rule }
        ensures functions { self.new.functions ≡ self.old.functions }
    {
        self.standing = Standing::Stuck(rule);
    }

    /// Goes on at a place of the function.
    pub(crate) fn go_to(&mut self, place: Call)
        requires { InFunction place.function self.old.standing }
        ensures moved { (g : List Cells) → config_of g self.new ≡ shifted place.place (config_of g self.old) }
        ensures functions { self.new.functions ≡ self.old.functions }
    {
        self.standing = Standing::Running(place);
    }

    /// Calls an earlier function, which returns to the next place.
    pub(crate) fn enter(&mut self, next: Call, function: usize)
        requires next { IsNext next self.old.standing }
        requires earlier { function < next.function }
        ensures moved { (g : List Cells) → config_of g self.new ≡ entered function (config_of g self.old) }
        ensures functions { self.new.functions ≡ self.old.functions }
    {
        self.callers.push_reserved(next);
        self.standing = Standing::Running(Call { function, place: 0 });
    }

    /// Goes on in the innermost caller. Where there is none, the run is over.
    pub(crate) fn leave(&mut self)
        requires { IsRunning self.old.standing }
        ensures moved { (g : List Cells) → config_of g self.new ≡ left (config_of g self.old) }
        ensures functions { self.new.functions ≡ self.old.functions }
    {
        match self.callers.pop() {
            None => {
                self.standing = Standing::Idle;
            }
            Some(caller) => {
                self.standing = Standing::Running(caller);
            }
        }
    }
}
