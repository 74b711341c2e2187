//! Laws of files. Each function does nothing, and its contract says what holds.
ghost use Rattle.std.specs.Prelude.{◌≡◌, ◌⊎◌, List};
ghost use Rattle.std.specs.List.{Contains};
ghost use Rattle.og_base.specs.declared.Place.{Place};
ghost use Rattle.og_base.specs.declared.Violation.{Violation};
ghost use Rattle.og_lexer.specs.declared.Spanned.{Spanned};
ghost use Rattle.og_lexer.specs.Texts.{EndsOnce};
ghost use Rattle.og_ast.specs.declared.system.Unit.{Unit as UnitTree};
ghost use Rattle.og_places.specs.Contents.{places_in_units};
ghost use Rattle.og_sdl.specs.declared.table.TheConstants.{SDL};
ghost use Rattle.og_reading.specs.Sentences.{FirstSyntactic};
ghost use Rattle.og_parse.specs.Grammar.{AreUnits};
ghost use Rattle.og_parse.specs.Alike.{words_of, AreAlike, StandsAtOne};
ghost use Rattle.og_parse.specs.Examples.{ProductInSum, SumToTheLeft, AndInOr, SignInProduct, KeywordAsField, ChoiceOfChoice, NoItems, TwoItems, NegativeComponent, LabelledTask, DecisionWithElse, HyphenedModule};
ghost use Rattle.og_parse.specs.PlaceExamples.{CommentBehindName, KeywordAlone, OperatorFirst, TwoSelectors, TwoComponents, TwoVariables, DecisionInStep, ExternalProcedure, InputAndSave, StateInPartition, RouteFromOutside, CountedReference, TwoUnits};

use og_sdl::can_be_read;

/// The tokens of a file are those of units or have a first violation of class S, and of one of these alone.
pub fn one_answer()
    ensures each { (tokens : List Spanned) → EndsOnce tokens → ((units : List UnitTree) × AreUnits units tokens) ⊎ ((v : Violation) × FirstSyntactic SDL tokens v) }
    ensures one_file { (tokens : List Spanned) (a b : List UnitTree) → AreUnits a tokens → AreUnits b tokens → a ≡ b }
    ensures one_violation { (tokens : List Spanned) (v w : Violation) → FirstSyntactic SDL tokens v → FirstSyntactic SDL tokens w → v ≡ w }
    ensures apart { (tokens : List Spanned) (units : List UnitTree) (v : Violation) → AreUnits units tokens → FirstSyntactic SDL tokens v → ⊥ }
{
    can_be_read();
}

/// Files of the same tokens are read alike, wherever these stand. So blanks, ends of lines and comments between two tokens
/// change no tree but for its places, and no violation of class S but for the place of its token.
pub fn same_tokens()
    // Where one of them is a file of units, so is the other.
    ensures read { (tokens others : List Spanned) (a : List UnitTree) → words_of tokens ≡ words_of others → AreUnits a tokens → (b : List UnitTree) × AreUnits b others }
    // Their units differ in places alone.
    ensures alike { (tokens others : List Spanned) (a b : List UnitTree) → words_of tokens ≡ words_of others → AreUnits a tokens → AreUnits b others → AreAlike a b }
    // Where one of them breaks a rule of class S, the other one breaks it at the same token.
    ensures broken { (tokens others : List Spanned) (v : Violation) → words_of tokens ≡ words_of others → FirstSyntactic SDL tokens v → (w : Violation) × FirstSyntactic SDL others w × (w.rule ≡ v.rule) × StandsAtOne tokens v others w }
{
    can_be_read();
}

/// Each place that the trees of a file keep is the place of one of its tokens, so that what is told of it is told of the file.
pub fn places_stand_in_text()
    ensures { (units : List UnitTree) (tokens : List Spanned) (p : Place) → AreUnits units tokens → Contains (places_in_units units) p → (t : Spanned) × Contains tokens t × (t.place ≡ p) }
{}

/// Worked examples of the places that trees keep.
pub fn places_of_trees()
    ensures names { CommentBehindName × KeywordAlone }
    ensures expressions { OperatorFirst × TwoSelectors × TwoComponents }
    ensures bodies { TwoVariables × DecisionInStep × ExternalProcedure }
    ensures states { InputAndSave × StateInPartition }
    ensures systems { RouteFromOutside × CountedReference × TwoUnits }
{}

/// Worked examples of the grammar.
pub fn examples()
    ensures operators { ProductInSum × SumToTheLeft × AndInOr × SignInProduct }
    ensures names { KeywordAsField × ChoiceOfChoice × HyphenedModule }
    ensures braces { NoItems × TwoItems × NegativeComponent }
    ensures steps { LabelledTask × DecisionWithElse }
{}
