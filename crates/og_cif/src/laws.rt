//! What holds of boxes and comments. Each function does nothing, and its contract is the law.
ghost use Rattle.std.specs.Prelude.{◌≡◌, ℕ, List};
ghost use Rattle.og_lexer.specs.declared.Language.{Language};
ghost use Rattle.og_lexer.specs.declared.Comment.{Comment};
ghost use Rattle.og_lexer.specs.Texts.{AreCommentsInPlaceIn};
ghost use Rattle.og_cif.specs.declared.CifBox.{CifBox};
ghost use Rattle.og_cif.specs.declared.BoxEnd.{BoxEnd};
ghost use Rattle.og_cif.specs.Form.{IsBox};
ghost use Rattle.og_cif.specs.File.{StandInFile, AreBoxes};

/// Comments that a file lexes to, of either language, stand in it.
pub fn lexed_comments_stand()
    ensures { (language : Language) (file : ℕ) (bytes : List ℕ) (at : ℕ) (comments : List Comment) →
        AreCommentsInPlaceIn language file bytes at comments → StandInFile bytes comments }
{}

/// A comment is one box at most, and a file has one list of boxes.
pub fn one_list_of_boxes()
    ensures one { (comment : List ℕ) (box other : CifBox) → IsBox box comment → IsBox other comment → box ≡ other }
    ensures list { (bytes : List ℕ) (comments : List Comment) (boxes others : List BoxEnd) →
        AreBoxes bytes comments boxes → AreBoxes bytes comments others → boxes ≡ others }
{}
