//! Laws of the rules and of files, each as the contract of a function that does nothing.
ghost use Rattle.std.specs.Prelude.{◌≡◌, ◌⊎◌, ◌↔◌, ℕ, ◌<◌, List, [], false, Some, None, Contains};
ghost use Rattle.og_base.specs.declared.Violation.{Violation};
ghost use Rattle.og_base.specs.Order.{comes_before, first_of};
ghost use Rattle.og_lexer.specs.declared.Spanned.{Spanned};
ghost use Rattle.og_lexer.specs.Texts.{AreInPlace};
ghost use Rattle.og_model.specs.Forms.{UsesBasicStatesOnly};
ghost use Rattle.og_model.specs.WellFormed.{IsWellFormed};
ghost use Rattle.og_front.specs.declared.syntax.SystemText.{SystemText};
ghost use Rattle.og_front.specs.Examples.{two_states, two_states_model, two_headers, two_headers_model};
ghost use Rattle.og_front.specs.Files.{IsAccepted, IsRefused, FirstViolation};
ghost use Rattle.og_front.specs.Grammar.{Begins, system_forms, Spells};
ghost use Rattle.og_front.specs.ModelOf.{model_of_tree};
ghost use Rattle.og_front.specs.Names.{HasShortNames};
ghost use Rattle.og_front.specs.Rules.{first_of_rules};
ghost use Rattle.og_front.specs.Written.{IsWrittenTree};

use og_grammar::each_is_answered;
use og_lexer::one_reading;

/// The bytes of a file of any number are accepted or have a first violation, which is one, and never both.
pub fn one_answer()
    ensures each { (file : ℕ) (bytes : List ℕ) → IsAccepted file bytes ⊎ IsRefused file bytes }
    ensures apart { (file : ℕ) (bytes : List ℕ) (v : Violation) → IsAccepted file bytes → FirstViolation file bytes v → ⊥ }
    ensures one { (file : ℕ) (bytes : List ℕ) (v w : Violation) → FirstViolation file bytes v → FirstViolation file bytes w → v ≡ w }
{
    one_reading();
    each_is_answered();
}

/// The first violation of a list is one of them, none of them comes before it, and only of none is there no first.
pub fn first_is_least()
    ensures among { (violations : List Violation) (v : Violation) → first_of violations ≡ Some v → Contains violations v }
    ensures least { (violations : List Violation) (v w : Violation) → first_of violations ≡ Some v → Contains violations w → comes_before w v ≡ false }
    ensures none { (violations : List Violation) → (first_of violations ≡ None) ↔ (violations ≡ []) }
{}

/// The sentences of the table are exactly the texts of the productions, each with its tree.
pub fn sentences_are_texts()
    ensures { (system : SystemText) (tokens : List Spanned) → Spells system tokens ↔ Begins (system_forms system) tokens [] }
{}

/// The names of a file whose tokens stand in their places are short.
pub fn names_are_short()
    ensures { (system : SystemText) (tokens : List Spanned) (file : ℕ) (bytes : List ℕ) (at : ℕ) →
        Spells system tokens → AreInPlace file bytes at tokens → HasShortNames system }
{}

/// The names and places of a file with a number below 64, whose tokens stand in their places, are such as stand in a text.
pub fn trees_are_written()
    ensures { (system : SystemText) (tokens : List Spanned) (file : ℕ) (bytes : List ℕ) (at : ℕ) →
        file < 64 → Spells system tokens → AreInPlace file bytes at tokens → IsWrittenTree system }
{}

/// The model of a tree that comes from a text and violates no rule is well formed, and its states are all basic.
pub fn models_are_well_formed()
    ensures formed { (system : SystemText) → IsWrittenTree system → first_of_rules system ≡ None → IsWellFormed (model_of_tree system) }
    ensures basic { (system : SystemText) → UsesBasicStatesOnly (model_of_tree system) }
{}

/// The models of two trees, worked out by hand.
pub fn models_of_trees()
    ensures states { model_of_tree two_states ≡ two_states_model }
    ensures headers { model_of_tree two_headers ≡ two_headers_model }
{}
