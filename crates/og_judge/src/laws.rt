//! Laws of judgements, each as the contract of a function that does nothing.
ghost use Rattle.std.specs.Prelude.{◌≡◌, ◌⊎◌, ◌<◌, List, length};
ghost use Rattle.og_base.specs.declared.Violation.{Violation};
ghost use Rattle.og_front.specs.declared.syntax.SystemText.{SystemText};
ghost use Rattle.og_model.specs.declared.Model.{Model};
ghost use Rattle.og_judge.specs.Judging.{SourceFile, HasOneProcess, AreTextOf, AreAccepted, IsFirstViolation, HaveModel};

use og_front::one_answer;
use og_grammar::one_derivation;
use og_lexer::{one_asn_reading, one_reading};

/// Model files of which one is of SDL/PR are accepted or have a first violation. Any model files have one first violation at
/// most, and none where they are accepted; it stands in one of them. They have one tree and one model at most.
pub fn one_judgement()
    ensures each { (files : List SourceFile) → HasOneProcess files → AreAccepted files ⊎ ((v : Violation) × IsFirstViolation files v) }
    ensures apart { (files : List SourceFile) (v : Violation) → AreAccepted files → IsFirstViolation files v → ⊥ }
    ensures one { (files : List SourceFile) (v w : Violation) → IsFirstViolation files v → IsFirstViolation files w → v ≡ w }
    ensures among { (files : List SourceFile) (v : Violation) → IsFirstViolation files v → v.place.file < length files }
    ensures tree { (files : List SourceFile) (system other : SystemText) → AreTextOf system 0 files → AreTextOf other 0 files → system ≡ other }
    ensures model { (files : List SourceFile) (model other : Model) → HaveModel files model → HaveModel files other → model ≡ other }
{
    one_reading();
    one_asn_reading();
    one_derivation();
    one_answer();
}
