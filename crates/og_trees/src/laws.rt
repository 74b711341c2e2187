//! Laws of model files, each as the contract of a function that does nothing.
ghost use Rattle.std.specs.Prelude.{◌≡◌, ◌⊎◌, ◌<◌, ◌≤◌, ℕ, List, Contains, length};
ghost use Rattle.std.specs.List.{AllByRecursion, flat_map};
ghost use Rattle.og_asn1.specs.Grammar.{AreModules};
ghost use Rattle.og_asn1.specs.declared.syntax.ModuleTree.{ModuleTree};
ghost use Rattle.og_asn1.specs.declared.syntax.Name.{Name as ModuleName};
ghost use Rattle.og_ast.specs.declared.ground.HyphenedName.{HyphenedName};
ghost use Rattle.og_ast.specs.declared.ground.Name.{Name};
ghost use Rattle.og_ast.specs.declared.system.Unit.{Unit as UnitTree};
ghost use Rattle.og_base.specs.declared.Place.{Place};
ghost use Rattle.og_base.specs.declared.Violation.{Violation};
ghost use Rattle.og_lexer.specs.declared.Comment.{Comment};
ghost use Rattle.og_lexer.specs.declared.Language.{Language};
ghost use Rattle.og_lexer.specs.declared.Spanned.{Spanned};
ghost use Rattle.og_lexer.specs.Texts.{LexesIn, AreInPlaceIn, EndsOnce};
ghost use Rattle.og_parse.specs.Grammar.{AreUnits};
ghost use Rattle.og_trees.specs.declared.Trees.{Trees};
ghost use Rattle.og_trees.specs.Examples.{NumbersRise, FirstIsFound, OrderIsKept, NoFiles, EmptyFiles, FilesInOrder, LanguagesDiffer, FirstOfTwoFiles, SecondOfTwoFiles, NoTextBeginsSo, FirstOfTwoTexts, TokensComeFirst};
ghost use Rattle.og_trees.specs.Places.{AreOfTokens};
ghost use Rattle.og_trees.specs.Reading.{SourceFile, AreModulesOf, AreUnitsOf, AreRead, AreTreesOf, IsFirstViolation};

use og_grammar::one_derivation;
use og_lexer::{one_asn_reading, one_reading};
use og_parse::laws::one_answer;

/// Any model files keep the rules on tokens and on syntax, and then have one list of modules and one of units, or they have one
/// first violation of these, which stands in one of them; and never both.
pub fn one_reading_of_files()
    ensures each { (files : List SourceFile) → AreRead files ⊎ ((v : Violation) × IsFirstViolation files v) }
    ensures apart { (files : List SourceFile) (v : Violation) → AreRead files → IsFirstViolation files v → ⊥ }
    ensures one { (files : List SourceFile) (v w : Violation) → IsFirstViolation files v → IsFirstViolation files w → v ≡ w }
    ensures among { (files : List SourceFile) (v : Violation) → IsFirstViolation files v → v.place.file < length files }
    ensures have { (files : List SourceFile) → AreRead files → (trees : Trees) × AreTreesOf files trees }
    ensures trees { (files : List SourceFile) (trees other : Trees) → AreTreesOf files trees → AreTreesOf files other → trees ≡ other }
    ensures one_modules { (files : List SourceFile) (modules others : List ModuleTree) → AreModulesOf 0 files modules → AreModulesOf 0 files others → modules ≡ others }
    ensures one_units { (files : List SourceFile) (units others : List UnitTree) → AreUnitsOf 0 files units → AreUnitsOf 0 files others → units ≡ others }
{
    one_reading();
    one_asn_reading();
    one_derivation();
    one_answer();
}

/// The tokens that a file lexes to stand in their places in it, one behind the other, and the last of them is its end.
pub fn tokens_stand_in_their_files()
    ensures placed { (language : Language) (number : ℕ) (bytes : List ℕ) (tokens : List Spanned) (comments : List Comment) →
        LexesIn language number bytes tokens comments → AreInPlaceIn language number bytes 0 tokens }
    ensures ends { (language : Language) (number : ℕ) (bytes : List ℕ) (tokens : List Spanned) (comments : List Comment) →
        LexesIn language number bytes tokens comments → EndsOnce tokens }
    ensures own { (language : Language) (number : ℕ) (bytes : List ℕ) (tokens : List Spanned) (comments : List Comment) →
        LexesIn language number bytes tokens comments → AllByRecursion (λ token. token.place.file ≡ number) tokens }
{}

/// The places that trees of files keep stand in one of these files, where each of them is the place of a token of its text.
pub fn places_stand_in_files()
    ensures units { (places : UnitTree → List Place) → AreOfTokens AreUnits places → (files : List SourceFile) (units : List UnitTree) (place : Place) →
        AreUnitsOf 0 files units → Contains (flat_map places units) place → place.file < length files }
    ensures modules { (places : ModuleTree → List Place) → AreOfTokens AreModules places → (files : List SourceFile) (modules : List ModuleTree) (place : Place) →
        AreModulesOf 0 files modules → Contains (flat_map places modules) place → place.file < length files }
{}

/// The names in trees have at most 64 bytes, whichever text they are read from.
pub fn names_are_short()
    ensures units { (name : Name) → length name.word.bytes ≤ 64 }
    ensures hyphened { (name : HyphenedName) → AllByRecursion (λ part. length part.word.bytes ≤ 64) name.parts }
    ensures modules { (name : ModuleName) → length name.word.bytes ≤ 64 }
{}

/// Worked examples of the definitions.
pub fn examples()
    ensures numbers { NumbersRise × FirstIsFound × OrderIsKept }
    ensures trees { NoFiles × EmptyFiles × FilesInOrder }
    ensures tokens { LanguagesDiffer × FirstOfTwoFiles × SecondOfTwoFiles }
    ensures syntax_after_tokens { NoTextBeginsSo × FirstOfTwoTexts × TokensComeFirst }
{}
