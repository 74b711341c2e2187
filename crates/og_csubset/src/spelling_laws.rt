//! Laws of the texts of the C subset. Nothing calls these functions: each states a law of the definitions as its contract.

ghost use Rattle.std.specs.Prelude.{◌≡◌, ◌<◌, ◌≤◌, ◌⊎◌, ℕ, ℤ, pos, negsuc, List, [], ◌∷◌, ◌++◌, codes};
ghost use Rattle.og_csubset.specs.declared.CProgram.{CProgram as Program};
ghost use Rattle.og_csubset.specs.declared.CExpr.{Number, Minus, Op};
ghost use Rattle.og_csubset.specs.declared.COp.TheVariants.{Add, Sub, Mul, Div, Rem};
ghost use Rattle.og_csubset.specs.Tokens.{Token, HasTokens};
ghost use Rattle.og_csubset.specs.Nesting.{nesting, HasNesting, IsWithinNesting, PassesNesting};
ghost use Rattle.og_csubset.specs.Plain.{plain_tokens, plain_text, IsWellMade};
ghost use Rattle.og_csubset.specs.Refusals.{IsTooDeep, IsBad, GoesWrongAt};
ghost use Rattle.og_csubset.specs.Wrong.{GoesWrong};
ghost use Rattle.og_csubset.specs.Spelling.{CSpells, least};
ghost use Rattle.og_csubset.specs.Texts.{lines, in_brackets, statements_text, number_of, spaced_statement, Assigns, SpeltByNone, counting, counting_text, forms, forms_text};

/// A text is spelt by at most one program.
pub fn one_program()
    ensures { (P Q : Program) (text : List ℕ) → CSpells P text → CSpells Q text → P ≡ Q }
{}

/// The small program by hand, and every form of statement.
pub fn whole_text()
    ensures counting { CSpells counting counting_text }
    ensures forms { CSpells forms forms_text }
{}

/// -2^63 is its twelve tokens as a bracket of their own. Other brackets around the same tokens make a difference.
pub fn least_number()
    ensures special { Assigns (Number least)
        (codes "x = (-INT64_C(9223372036854775807) - INT64_C(1));") }
    ensures bracketed_again { Assigns (Number least)
        (codes "x = ((-INT64_C(9223372036854775807) - INT64_C(1)));") }
    ensures negated { Assigns (Minus (Number least))
        (codes "x = -(-INT64_C(9223372036854775807) - INT64_C(1));") }
    ensures no_bracket { Assigns (Op Sub (Number (negsuc 9223372036854775806)) (Number (pos 1)))
        (codes "x = -INT64_C(9223372036854775807) - INT64_C(1);") }
    ensures left_bracket { Assigns (Op Sub (Number (negsuc 9223372036854775806)) (Number (pos 1)))
        (codes "x = ((-INT64_C(9223372036854775807)) - INT64_C(1));") }
    ensures more_behind { Assigns (Op Sub (Op Sub (Number (negsuc 9223372036854775806)) (Number (pos 1))) (Number (pos 1)))
        (codes "x = (-INT64_C(9223372036854775807) - INT64_C(1) - INT64_C(1));") }
{}

/// A sign right before a literal that is not 0 makes a number, any other sign an operation.
pub fn signs()
    ensures negative { Assigns (Number (negsuc 4)) (codes "x = -INT64_C(5);") }
    ensures zero { Assigns (Minus (Number (pos 0))) (codes "x = -INT64_C(0);") }
    ensures bracket { Assigns (Minus (Number (pos 5))) (codes "x = -(INT64_C(5));") }
    ensures variable { Assigns (Minus (number_of (codes "a"))) (codes "x = -a;") }
    ensures behind_minus { Assigns (Op Sub (number_of (codes "a")) (Number (negsuc 0)))
        (codes "x = a - -INT64_C(1);") }
{}

/// Operators of one level bind to the left, those of a product before those of a sum; brackets change this, and otherwise nothing.
pub fn brackets()
    ensures left { Assigns (Op Sub (Op Sub (number_of (codes "a")) (number_of (codes "b"))) (number_of (codes "c")))
        (codes "x = a - b - c;") }
    ensures right { Assigns (Op Sub (number_of (codes "a")) (Op Sub (number_of (codes "b")) (number_of (codes "c"))))
        (codes "x = a - (b - c);") }
    ensures products { Assigns (Op Mul (Op Rem (number_of (codes "a")) (number_of (codes "b"))) (number_of (codes "c")))
        (codes "x = a % b * c;") }
    ensures product_first { Assigns (Op Add (number_of (codes "a")) (Op Div (number_of (codes "b")) (number_of (codes "c"))))
        (codes "x = a + b / c;") }
    ensures beyond_need { Assigns (Op Add (number_of (codes "a")) (Op Div (number_of (codes "b")) (number_of (codes "c"))))
        (codes "x = ((a) + (b / (c)));") }
{}

/// White space is free between tokens.
pub fn white_space()
    ensures none { Assigns (Op Add (number_of (codes "a")) (Number (pos 1)))
        (codes "x=a+INT64_C(1);") }
    ensures much { Assigns (Op Add (number_of (codes "a")) (Number (pos 1))) spaced_statement }
{}

/// Texts that no program spells.
pub fn refused()
    ensures no_semicolon { SpeltByNone (statements_text (codes "x = a")) }
    ensures leading_zero { SpeltByNone (statements_text (codes "x = INT64_C(07);")) }
    ensures past_the_limit { SpeltByNone
        (statements_text (codes "x = INT64_C(9223372036854775808);")) }
    ensures two_signs { SpeltByNone (statements_text (codes "x = - - a;")) }
    ensures joined_signs { SpeltByNone (statements_text (codes "x = a --INT64_C(1);")) }
    ensures keyword { SpeltByNone (statements_text (codes "while = a;")) }
    ensures comment { SpeltByNone (statements_text (codes "/* */ x = a;")) }
    ensures underscore { SpeltByNone (statements_text (codes "_x = a;")) }
    ensures label_alone { SpeltByNone (statements_text (codes "l:")) }
    ensures first_line { SpeltByNone (lines (codes "#include  <stdint.h>" ∷ [])) }
    ensures empty { SpeltByNone [] }
    ensures no_member { SpeltByNone
        (lines (codes "#include <stdint.h>" ∷ codes "typedef struct { } A;" ∷ [])) }
    ensures size_zero { SpeltByNone
        (lines (codes "#include <stdint.h>" ∷ codes "typedef struct { int64_t e[0]; } A;" ∷ [])) }
    ensures size_past { SpeltByNone
        (lines (codes "#include <stdint.h>" ∷ codes "typedef struct { int64_t e[65537]; } A;" ∷ [])) }
{}

/// The greatest nesting of some texts, counted by hand. The braces of the function count one everywhere.
pub fn nesting_counts()
    ensures assignment { HasNesting (statements_text (codes "x = a;")) 1 }
    ensures operators { HasNesting (statements_text (codes "x = a + b - c;")) 3 }
    ensures literal { HasNesting (statements_text (codes "x = INT64_C(1);")) 2 }
    ensures target { HasNesting (statements_text (codes "w.e[k] = a;")) 4 }
    ensures both_sides { HasNesting (statements_text (codes "w.e[k] = w.e[k];")) 4 }
    ensures selectors_stay { HasNesting (statements_text (codes "x = w.e[k] + a + b;")) 5 }
    ensures bracket_ends { HasNesting (statements_text (codes "x = (a + b) * c;")) 3 }
    ensures test { HasNesting (statements_text (codes "if (a < b) goto l;")) 3 }
    ensures choice { HasNesting (statements_text (codes "x = (a < b ? c : -d);")) 4 }
    ensures constants { HasNesting
        (statements_text (codes "switch (a) { case -INT64_C(2): goto l; case -INT64_C(3): goto l; default: goto l; }")) 4 }
    ensures whole_text { HasNesting counting_text 4 }
    ensures at_the_limit { HasNesting
        (statements_text (codes "x = " ++ (in_brackets 255 (codes "a") ++ codes ";"))) 256 }
    ensures past_the_limit { HasNesting
        (statements_text (codes "x = " ++ (in_brackets 256 (codes "a") ++ codes ";"))) 257 }
{}

/// A text nests too deep at one place, where its first token stands that passes the limit, or stays within it.
pub fn one_deep_place()
    ensures unique { (limit : ℕ) (text before other : List ℕ) → PassesNesting limit text before
        → PassesNesting limit text other → before ≡ other }
    ensures no_place { (limit : ℕ) (text before : List ℕ) → PassesNesting limit text before
        → IsWithinNesting limit text → ⊥ }
    ensures place { (limit : ℕ) (text : List ℕ) (tokens : List Token) → HasTokens tokens text → limit < nesting tokens
        → (before : List ℕ) × PassesNesting limit text before }
{}

/// A text has one list of tokens at most.
pub fn one_list_of_tokens()
    ensures { (tokens others : List Token) (text : List ℕ) → HasTokens tokens text → HasTokens others text → tokens ≡ others }
{}

/// A program has a text exactly where its names are C names, its numbers have 64 bits, and its members and sizes are as the
/// grammar has them; one such text has no bracket beyond need.
pub fn plain_text_of_each()
    ensures well_made { (P : Program) (text : List ℕ) → CSpells P text → IsWellMade P }
    ensures spells { (P : Program) → IsWellMade P → CSpells P (plain_text P) }
    ensures nests { (P : Program) (limit : ℕ) → IsWellMade P
        → nesting (plain_tokens P) ≤ limit → IsWithinNesting limit (plain_text P) }
{}

/// A text that no program spells goes wrong at one place, and any other at none.
pub fn one_wrong_place()
    ensures unique { (text before other : List ℕ) → GoesWrong text before → GoesWrong text other → before ≡ other }
    ensures nowhere { (P : Program) (text before : List ℕ) → CSpells P text → GoesWrong text before → ⊥ }
    ensures somewhere { (text : List ℕ)
        → ((P : Program) × CSpells P text) ⊎ ((before : List ℕ) × GoesWrong text before) }
{}

/// Of each text one thing is true: a program spells it within the limit of nesting, or it nests too deep at a place, or it is
/// bad at a place.
pub fn one_answer()
    ensures some { (limit : ℕ) (text : List ℕ) → ((P : Program) × CSpells P text × IsWithinNesting limit text)
        ⊎ (((before : List ℕ) × IsTooDeep limit text before) ⊎ ((before : List ℕ) × IsBad limit text before)) }
    ensures not_spelt_and_deep { (limit : ℕ) (text before : List ℕ)
        → IsWithinNesting limit text → IsTooDeep limit text before → ⊥ }
    ensures not_spelt_and_bad { (limit : ℕ) (P : Program) (text before : List ℕ)
        → CSpells P text → IsBad limit text before → ⊥ }
    ensures not_deep_and_bad { (limit : ℕ) (text before other : List ℕ)
        → IsTooDeep limit text before → IsBad limit text other → ⊥ }
{}

/// Where some texts go wrong, by line and column, counted by hand.
pub fn wrong_places()
    ensures cut_in_a_word { GoesWrongAt
        (lines (codes "#include <stdint.h>" ∷ []) ++ codes "void sta") 2 9 }
    ensures behind_the_last_line { GoesWrongAt
        (lines (codes "#include <stdint.h>" ∷ codes "void f(void) {" ∷ [])) 3 1 }
    ensures no_semicolon { GoesWrongAt (statements_text (codes "x = a")) 2 20 }
    ensures leading_zero { GoesWrongAt (statements_text (codes "x = INT64_C(07);")) 2 27 }
    ensures past_the_limit { GoesWrongAt
        (statements_text (codes "x = INT64_C(9223372036854775808);")) 2 27 }
    ensures two_signs { GoesWrongAt (statements_text (codes "x = - - a;")) 2 21 }
    ensures joined_signs { GoesWrongAt (statements_text (codes "x = a --INT64_C(1);")) 2 21 }
    ensures keyword { GoesWrongAt (statements_text (codes "while = a;")) 2 15 }
    ensures label_alone { GoesWrongAt (statements_text (codes "l:")) 2 17 }
    ensures foreign_byte { GoesWrongAt (statements_text (codes "x = a & b;")) 2 21 }
    ensures size_past { GoesWrongAt
        (lines (codes "#include <stdint.h>" ∷ codes "typedef struct { int64_t e[65537]; } A;" ∷ [])) 2 28 }
    ensures first_line { GoesWrongAt (lines (codes "#include  <stdint.h>" ∷ [])) 1 1 }
{}
