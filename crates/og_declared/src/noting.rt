//! The first of the violations so far.
ghost use Rattle.std.specs.Prelude.{◌≡◌};
ghost use Rattle.og_base.specs.Order.{first_from};
ghost use Rattle.og_system.specs.Scopes.{violated_if, looked_up};

use og_ast::Name;
use og_base::{Rule, Violation, sooner};

/// Keeps the violation in mind where the rule is broken at the name, unless an earlier one is known.
pub fn note_if(broken: bool, rule: Rule, name: &Name, first: &mut Option<Violation>)
    ensures { first.new ≡ first_from first.old (violated_if broken rule name.now) }
{
    if broken {
        *first = sooner(
            *first,
            Violation {
                rule,
                place: name.place,
            },
        );
    }
}

/// N3 at a name that only something of another kind has, N1 at one that nothing has.
pub fn note_looked_up(own: bool, any: bool, name: &Name, first: &mut Option<Violation>)
    ensures { first.new ≡ first_from first.old (looked_up own any name.now) }
{
    if own {
        return;
    }
    if any {
        note_if(true, Rule::N3, name, first);
    } else {
        note_if(true, Rule::N1, name, first);
    }
}
