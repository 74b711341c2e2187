//! The first violation of the rules on what systems and blocks declare.
#![tactic(auto, using(crate::proofs::Noticing::notes))]

ghost use Rattle.std.specs.Prelude.{◌≡◌, IfOk, OnOk};
ghost use Rattle.og_base.specs.Order.{first_from, first_of};
ghost use Rattle.og_declared.specs.Violations.{violations};

use crate::signals::note_signals;
use crate::sorts::note_sorts;
use crate::spaces::{note_bodies, note_spaces};
use crate::visible::Outside;
use og_ast::Unit;
use og_base::Violation;
use og_names::{Names, NoMemory};
use std::alloc::Global;

/// The first violation of N2 and N4 at the names that systems, blocks and files declare, and of N1 and N3 at the types of
/// the parameters of signals. `types` and `constants` have the names of the types and of the constants of ASN.1. Timers are
/// not looked at, nor what else stands inside processes and procedures.
pub fn first_violation(
    alloc: Global,
    units: &[Unit],
    types: &Names,
    constants: &Names,
) -> Result<Option<Violation>, NoMemory>
    ensures { IfOk result (λ first. first ≡ first_of (violations types.now constants.now units.now)) }
{
    let mut first = None;
    note_violations(alloc, units, types, constants, &mut first)?;
    Ok(first)
}

/// The same, where `first` is the first of other violations.
pub fn note_violations(
    alloc: Global,
    units: &[Unit],
    types: &Names,
    constants: &Names,
    first: &mut Option<Violation>,
) -> Result<(), NoMemory>
    ensures { OnOk result (first.new ≡ first_from first.old (violations types.now constants.now units.now)) }
{
    note_signals(alloc, units, first)?;
    note_bodies(alloc, units, first)?;
    note_spaces(alloc, units, first)?;
    let outside = Outside::of(alloc, types, constants, units)?;
    note_sorts(alloc, &outside, units, first)?;
    Ok(())
}
