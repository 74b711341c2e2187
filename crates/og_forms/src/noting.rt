//! The first of the violations so far.
ghost use Rattle.std.specs.Prelude.{◌≡◌, ◌∷◌, []};
ghost use Rattle.og_forms.specs.Forms.{at, when, noted};

use crate::form::{Form, is_built};
use og_base::{Place, Rule, Violation, sooner};

/// Keeps in mind a form that is not built, unless an earlier one is known.
pub fn note(form: Form, place: Place, first: &mut Option<Violation>)
    ensures { first.new ≡ noted first.old (at form place ∷ []) }
{
    if !is_built(form) {
        *first = sooner(
            *first,
            Violation {
                rule: Rule::F1,
                place,
            },
        );
    }
}

/// The same where the form stands there.
pub fn note_if(stands: bool, form: Form, place: Place, first: &mut Option<Violation>)
    ensures { first.new ≡ noted first.old (when stands form place) }
{
    if stands {
        note(form, place, first);
    }
}
