ghost use Rattle.std.specs.Prelude.{◌≡◌, ◌⊎◌, ℕ, ◌-◌, List, length, take};
ghost use Rattle.og_base.specs.declared.Violation.{Violation};
ghost use Rattle.og_lexer.specs.declared.Language.{Language};
ghost use Rattle.og_lexer.specs.declared.Language.TheVariants.{Asn};
ghost use Rattle.og_lexer.specs.declared.Spanned.{Spanned};
ghost use Rattle.og_lexer.specs.declared.Comment.{Comment};
ghost use Rattle.og_lexer.specs.declared.front.Shape.{Shape};
ghost use Rattle.og_lexer.specs.Pieces.{Stands, IsWithin};
ghost use Rattle.og_lexer.specs.Front.{found};
ghost use Rattle.og_lexer.specs.AsnFront.{front_in};
ghost use Rattle.og_lexer.specs.Texts.{Lexes, FirstLexical, IsText, IsBroken, LexesIn, FirstLexicalIn, IsTextIn, IsBrokenIn, tokens_from, comments_from};
ghost use Rattle.og_lexer.specs.Examples.{PlacesCount, NumbersCount, FrontsStand, ViolationsStand};
ghost use Rattle.og_lexer.specs.AsnExamples.{BytesBegin, AsnFrontsStand, AsnTextsStand, AsnMarksStand, AsnCommentsStand, AsnViolationsStand};

/// Any bytes lex as SDL/PR, in one way alone, or have a first violation of class L, which is one, and never both.
pub fn one_reading()
    ensures each { (file : ℕ) (bytes : List ℕ) → IsText file bytes ⊎ IsBroken file bytes }
    ensures tokens { (file : ℕ) (bytes : List ℕ) (tokens others : List Spanned) (comments more : List Comment) →
        Lexes file bytes tokens comments → Lexes file bytes others more → (tokens ≡ others) × (comments ≡ more) }
    ensures violation { (file : ℕ) (bytes : List ℕ) (v w : Violation) →
        FirstLexical file bytes v → FirstLexical file bytes w → v ≡ w }
    ensures apart { (file : ℕ) (bytes : List ℕ) (tokens : List Spanned) (comments : List Comment) (v : Violation) →
        Lexes file bytes tokens comments → FirstLexical file bytes v → ⊥ }
{}

/// Any bytes lex as ASN.1, in one way alone, or have a first violation of class L, which is one, and never both.
pub fn one_asn_reading()
    ensures each { (file : ℕ) (bytes : List ℕ) → IsTextIn Asn file bytes ⊎ IsBrokenIn Asn file bytes }
    ensures tokens { (file : ℕ) (bytes : List ℕ) (tokens others : List Spanned) (comments more : List Comment) →
        LexesIn Asn file bytes tokens comments → LexesIn Asn file bytes others more → (tokens ≡ others) × (comments ≡ more) }
    ensures violation { (file : ℕ) (bytes : List ℕ) (v w : Violation) →
        FirstLexicalIn Asn file bytes v → FirstLexicalIn Asn file bytes w → v ≡ w }
    ensures apart { (file : ℕ) (bytes : List ℕ) (tokens : List Spanned) (comments : List Comment) (v : Violation) →
        LexesIn Asn file bytes tokens comments → FirstLexicalIn Asn file bytes v → ⊥ }
{}

/// The bytes before the first violation of class L lex, and to the tokens and comments that stand before it.
pub fn front_lexes()
    ensures { (language : Language) (file : ℕ) (bytes : List ℕ) (v : Violation) (first : FirstLexicalIn language file bytes v) →
        let at = length bytes - length first.rest in
        LexesIn language file (take at bytes) (tokens_from file bytes 0 first.before) (comments_from file bytes 0 first.before) }
{}

/// One piece at most stands in front of a text, and it is the one that the reader computes.
pub fn one_front()
    ensures { (language : Language) (shape : Shape) (text bytes rest : List ℕ) →
        Stands language shape text bytes rest → IsWithin shape text → front_in language bytes ≡ found shape (length text) }
{}

/// Worked examples of the definitions.
pub fn examples()
    ensures places { PlacesCount }
    ensures numbers { NumbersCount }
    ensures fronts { FrontsStand }
    ensures violations { ViolationsStand }
{}

/// Worked examples of the definitions of ASN.1's pieces.
pub fn asn_examples()
    ensures bytes { BytesBegin }
    ensures fronts { AsnFrontsStand }
    ensures texts { AsnTextsStand }
    ensures marks { AsnMarksStand }
    ensures comments { AsnCommentsStand }
    ensures violations { AsnViolationsStand }
{}
