//! The parser: the tokens of a model file as a tree (Z.106, the textual form). The reader of tables finds the derivation,
//! and the tree is built from its choices and the tokens.
ghost use Rattle.std.specs.Prelude.{◌≡◌, ℕ, List, IfOk, IsErrOf, length, map};
ghost use Rattle.og_lexer.specs.declared.Spanned.{Spanned};
ghost use Rattle.og_grammar.specs.Reading.{behind, after, goes_on, many};
ghost use Rattle.og_grammar.specs.Sentence.{Spells as Derived};
ghost use Rattle.og_front.specs.declared.grammar.TheConstants.{GRAMMAR, LAST};
ghost use Rattle.og_front.specs.Grammar.{Spells};
ghost use Rattle.og_front.specs.declared.parse.ParseError.TheVariants as failed;
ghost use Rattle.og_front.specs.Reading.{IsOutOfMemory, is_fixed, fixed_place, kind_of, kinds_of, place_in, word_in, name_in, next_at, output_at, input_at, state_at, further_at, signal_at, start_at, system_at, tree_of};

use crate::grammar::{GRAMMAR, LAST, PARTS};
use crate::kind::FORMS;
use crate::syntax::{Ident, InputText, NextText, SignalText, StartText, StateText, SystemText};
use og_base::Place;
use og_grammar::{Refusal, derive, never_deeper};
use og_lexer::{Keyword, Mark, Spanned, Token};
use og_names::{NoMemory, Word};
use sqlite_items::Items;
use std::alloc::{AllocError, Global};

/// Why a list of tokens gives no tree: it is no sentence of the grammar, or memory could not be had.
#[derive(Clone, Copy, Debug, PartialEq, Eq)]
pub enum ParseError {
    NoSentence,
    NoMemory(NoMemory),
}

impl From<AllocError> for ParseError {
    ghost from_gives = { λ _ error. IsOutOfMemory error };

    fn from(error: AllocError) -> ParseError {
        ParseError::NoMemory(NoMemory::from(error))
    }
}

impl From<NoMemory> for ParseError {
    ghost from_gives = { λ met error. error ≡ failed.NoMemory met };

    fn from(met: NoMemory) -> ParseError {
        ParseError::NoMemory(met)
    }
}

/// The form of a token: a name, or one that is fixed but for its place.
#[derive(Clone, Copy)]
pub enum Fixed {
    Name,
    Keyword(Keyword),
    Mark(Mark),
    End,
}

/// The tree of the tokens, in time linear in their number.
pub fn parse_system(alloc: Global, tokens: &[Spanned]) -> Result<SystemText, ParseError>
    // The tokens are a sentence with this tree.
    ensures found { IfOk result (λ system. Spells system tokens.now) }
    // They are one with no other tree.
    ensures only { IfOk result (λ system. (other : SystemText) → Spells other tokens.now → other ≡ system) }
    // Tokens that are refused as no sentence are one with no tree.
    ensures none { IsErrOf result ParseError.NoSentence → (system : SystemText) → Spells system tokens.now → ⊥ }
{
    let choices = choices_of(alloc, tokens)?;
    let (system, _, _) = system_of(alloc, choices.as_slice(), tokens)?;
    Ok(system)
}

/// The choices of the derivation of the tokens.
fn choices_of(alloc: Global, tokens: &[Spanned]) -> Result<Items<u8>, ParseError>
    ensures found { IfOk result (λ choices. Derived GRAMMAR LAST (kinds_of tokens.now) choices) }
    ensures only { IfOk result (λ choices. (other : List ℕ) → Derived GRAMMAR LAST (kinds_of tokens.now) other → other ≡ choices) }
    ensures none { IsErrOf result ParseError.NoSentence → (other : List ℕ) → Derived GRAMMAR LAST (kinds_of tokens.now) other → ⊥ }
{
    never_deeper();
    let kinds = kinds_of(alloc, tokens)?;
    // The nesting never rises in this grammar.
    match derive(alloc, &GRAMMAR, &PARTS, LAST, 0, kinds.as_slice()) {
        Ok(choices) => Ok(choices),
        Err(Refusal::NoMemory(met)) => Err(ParseError::NoMemory(NoMemory::from(met))),
        Err(Refusal::TooDeep(_)) => unreachable!(),
        Err(Refusal::Wrong(_)) => Err(ParseError::NoSentence),
        Err(Refusal::CutOff) => Err(ParseError::NoSentence),
    }
}

/// The kinds of the tokens.
fn kinds_of(alloc: Global, tokens: &[Spanned]) -> Result<Vec<u8>, AllocError>
    ensures { IfOk result (λ kinds. kinds.items ≡ kinds_of tokens.now) }
{
    tokens
        .iter()
        .map(|token| kind_of(&token.token))
        .collect(alloc)
}

/// The kind of a token, 255 where the grammar has none.
fn kind_of(token: &Token) -> u8
    ensures { result ≡ kind_of token.now }
{
    match fixed_place(token) {
        Some(place) => (place % 256) as u8,
        None => 255,
    }
}

/// The place of the token's form.
#[tactic(auto, unfolding(crate::specs::Reading::fixed_place))]
fn fixed_place(token: &Token) -> Option<usize>
    ensures { result ≡ fixed_place token.now }
{
    FORMS.iter().position(|form| is_fixed(*form, token))
}

/// Whether the token is of this form.
#[tactic(auto, unfolding(crate::specs::Reading::same_keyword, crate::specs::Reading::same_mark))]
fn is_fixed(form: Fixed, token: &Token) -> bool
    ensures { result ≡ is_fixed form token.now }
{
    match form {
        Fixed::Name => matches!(token, Token::Name(_)),
        Fixed::Keyword(word) => matches!(token, Token::Keyword(found) if *found == word),
        Fixed::Mark(mark) => matches!(token, Token::Mark(found) if *found == mark),
        Fixed::End => matches!(token, Token::End),
    }
}

/// SYSTEM name ; { signal } BLOCK name ; PROCESS name ; start { state } and the closings.
#[tactic(auto, unfolding(crate::specs::Reading::system_at))]
fn system_of<'a>(
    alloc: Global,
    choices: &'a [u8],
    tokens: &'a [Spanned],
) -> Result<(SystemText, &'a [u8], &'a [Spanned]), NoMemory>
    ensures { IfOk result (λ x. (x.0, x.1.now, x.2.now) ≡ system_at choices.now tokens.now) }
{
    let system = name_of(alloc, behind(tokens))?;
    let (signals, choices, tokens) = signals_of(
        alloc,
        after(choices),
        behind(behind(behind(tokens))),
    )?;
    let block = name_of(alloc, behind(tokens))?;
    let tokens = behind(behind(behind(tokens)));
    let process = name_of(alloc, behind(tokens))?;
    let (start, choices, tokens) = start_of(alloc, choices, behind(behind(behind(tokens))))?;
    let (states, choices, tokens) = states_of(alloc, choices, tokens)?;
    let system = SystemText {
        system,
        signals,
        block,
        process,
        start,
        states,
    };
    Ok((system, choices, tokens))
}

/// The signals.
#[tactic(auto, using(og_grammar::proofs::Repeats::turns))]
fn signals_of<'a>(
    alloc: Global,
    choices: &'a [u8],
    tokens: &'a [Spanned],
) -> Result<(Items<SignalText>, &'a [u8], &'a [Spanned]), NoMemory>
    ensures { IfOk result (λ x. (x.0, x.1.now, x.2.now) ≡ many signal_at choices.now tokens.now) }
{
    let mut signals = Items::new(alloc);
    let mut left = choices;
    let mut rest = tokens;
    for _ in 0..choices.len() {
        if !goes_on(left) {
            return Ok((signals, after(left), rest));
        }
        let (signal, later, more) = signal_of(alloc, after(left), rest)?;
        signals.push(signal)?;
        left = later;
        rest = more;
    }
    Ok((signals, left, rest))
}

/// SIGNAL name { , name } ;
#[tactic(auto, unfolding(crate::specs::Reading::signal_at))]
fn signal_of<'a>(
    alloc: Global,
    choices: &'a [u8],
    tokens: &'a [Spanned],
) -> Result<(SignalText, &'a [u8], &'a [Spanned]), NoMemory>
    ensures { IfOk result (λ x. (x.0, x.1.now, x.2.now) ≡ signal_at choices.now tokens.now) }
{
    let first = name_of(alloc, behind(tokens))?;
    let (others, choices, tokens) = furthers_of(alloc, after(choices), behind(behind(tokens)))?;
    Ok((SignalText { first, others }, choices, behind(tokens)))
}

/// The names behind a comma each.
#[tactic(auto, using(og_grammar::proofs::Repeats::turns))]
fn furthers_of<'a>(
    alloc: Global,
    choices: &'a [u8],
    tokens: &'a [Spanned],
) -> Result<(Items<Ident>, &'a [u8], &'a [Spanned]), NoMemory>
    ensures { IfOk result (λ x. (x.0, x.1.now, x.2.now) ≡ many further_at choices.now tokens.now) }
{
    let mut others = Items::new(alloc);
    let mut left = choices;
    let mut rest = tokens;
    for _ in 0..choices.len() {
        if !goes_on(left) {
            return Ok((others, after(left), rest));
        }
        let (other, later, more) = further_of(alloc, after(left), rest)?;
        others.push(other)?;
        left = later;
        rest = more;
    }
    Ok((others, left, rest))
}

/// , name
#[tactic(auto, unfolding(crate::specs::Reading::further_at))]
fn further_of<'a>(
    alloc: Global,
    choices: &'a [u8],
    tokens: &'a [Spanned],
) -> Result<(Ident, &'a [u8], &'a [Spanned]), NoMemory>
    ensures { IfOk result (λ x. (x.0, x.1.now, x.2.now) ≡ further_at choices.now tokens.now) }
{
    let name = name_of(alloc, behind(tokens))?;
    Ok((name, after(choices), behind(behind(tokens))))
}

/// START ; next
#[tactic(auto, unfolding(crate::specs::Reading::start_at))]
fn start_of<'a>(
    alloc: Global,
    choices: &'a [u8],
    tokens: &'a [Spanned],
) -> Result<(StartText, &'a [u8], &'a [Spanned]), NoMemory>
    ensures { IfOk result (λ x. (x.0, x.1.now, x.2.now) ≡ start_at choices.now tokens.now) }
{
    let place = place_in(tokens);
    let (next, choices, tokens) = next_of(alloc, after(choices), behind(behind(tokens)))?;
    Ok((StartText { place, next }, choices, tokens))
}

/// The states.
#[tactic(auto, using(og_grammar::proofs::Repeats::turns))]
fn states_of<'a>(
    alloc: Global,
    choices: &'a [u8],
    tokens: &'a [Spanned],
) -> Result<(Items<StateText>, &'a [u8], &'a [Spanned]), NoMemory>
    ensures { IfOk result (λ x. (x.0, x.1.now, x.2.now) ≡ many state_at choices.now tokens.now) }
{
    let mut states = Items::new(alloc);
    let mut left = choices;
    let mut rest = tokens;
    for _ in 0..choices.len() {
        if !goes_on(left) {
            return Ok((states, after(left), rest));
        }
        let (state, later, more) = state_of(alloc, after(left), rest)?;
        states.push(state)?;
        left = later;
        rest = more;
    }
    Ok((states, left, rest))
}

/// STATE name ; { input } ENDSTATE ;
#[tactic(auto, unfolding(crate::specs::Reading::state_at))]
fn state_of<'a>(
    alloc: Global,
    choices: &'a [u8],
    tokens: &'a [Spanned],
) -> Result<(StateText, &'a [u8], &'a [Spanned]), NoMemory>
    ensures { IfOk result (λ x. (x.0, x.1.now, x.2.now) ≡ state_at choices.now tokens.now) }
{
    let name = name_of(alloc, behind(tokens))?;
    let (inputs, choices, tokens) = inputs_of(
        alloc,
        after(choices),
        behind(behind(behind(tokens))),
    )?;
    Ok((StateText { name, inputs }, choices, behind(behind(tokens))))
}

/// The inputs of a state.
#[tactic(auto, using(og_grammar::proofs::Repeats::turns))]
fn inputs_of<'a>(
    alloc: Global,
    choices: &'a [u8],
    tokens: &'a [Spanned],
) -> Result<(Items<InputText>, &'a [u8], &'a [Spanned]), NoMemory>
    ensures { IfOk result (λ x. (x.0, x.1.now, x.2.now) ≡ many input_at choices.now tokens.now) }
{
    let mut inputs = Items::new(alloc);
    let mut left = choices;
    let mut rest = tokens;
    for _ in 0..choices.len() {
        if !goes_on(left) {
            return Ok((inputs, after(left), rest));
        }
        let (input, later, more) = input_of(alloc, after(left), rest)?;
        inputs.push(input)?;
        left = later;
        rest = more;
    }
    Ok((inputs, left, rest))
}

/// INPUT name ; { output } next
#[tactic(auto, unfolding(crate::specs::Reading::input_at))]
fn input_of<'a>(
    alloc: Global,
    choices: &'a [u8],
    tokens: &'a [Spanned],
) -> Result<(InputText, &'a [u8], &'a [Spanned]), NoMemory>
    ensures { IfOk result (λ x. (x.0, x.1.now, x.2.now) ≡ input_at choices.now tokens.now) }
{
    let place = place_in(tokens);
    let signal = name_of(alloc, behind(tokens))?;
    let (outputs, choices, tokens) = outputs_of(
        alloc,
        after(choices),
        behind(behind(behind(tokens))),
    )?;
    let (next, choices, tokens) = next_of(alloc, choices, tokens)?;
    let input = InputText {
        place,
        signal,
        outputs,
        next,
    };
    Ok((input, choices, tokens))
}

/// The outputs of an input.
#[tactic(auto, using(og_grammar::proofs::Repeats::turns))]
fn outputs_of<'a>(
    alloc: Global,
    choices: &'a [u8],
    tokens: &'a [Spanned],
) -> Result<(Items<Ident>, &'a [u8], &'a [Spanned]), NoMemory>
    ensures { IfOk result (λ x. (x.0, x.1.now, x.2.now) ≡ many output_at choices.now tokens.now) }
{
    let mut outputs = Items::new(alloc);
    let mut left = choices;
    let mut rest = tokens;
    for _ in 0..choices.len() {
        if !goes_on(left) {
            return Ok((outputs, after(left), rest));
        }
        let (output, later, more) = output_of(alloc, after(left), rest)?;
        outputs.push(output)?;
        left = later;
        rest = more;
    }
    Ok((outputs, left, rest))
}

/// OUTPUT name ;
#[tactic(auto, unfolding(crate::specs::Reading::output_at))]
fn output_of<'a>(
    alloc: Global,
    choices: &'a [u8],
    tokens: &'a [Spanned],
) -> Result<(Ident, &'a [u8], &'a [Spanned]), NoMemory>
    ensures { IfOk result (λ x. (x.0, x.1.now, x.2.now) ≡ output_at choices.now tokens.now) }
{
    let name = name_of(alloc, behind(tokens))?;
    Ok((name, after(choices), behind(behind(behind(tokens)))))
}

/// NEXTSTATE name ;
#[tactic(auto, unfolding(crate::specs::Reading::next_at))]
fn next_of<'a>(
    alloc: Global,
    choices: &'a [u8],
    tokens: &'a [Spanned],
) -> Result<(NextText, &'a [u8], &'a [Spanned]), NoMemory>
    ensures { IfOk result (λ x. (x.0, x.1.now, x.2.now) ≡ next_at choices.now tokens.now) }
{
    let place = place_in(tokens);
    let state = name_of(alloc, behind(tokens))?;
    Ok((
        NextText { place, state },
        after(choices),
        behind(behind(behind(tokens))),
    ))
}

/// The tokens behind the first.
fn behind(tokens: &[Spanned]) -> &[Spanned]
    ensures { result.now ≡ behind tokens.now }
{
    match tokens {
        [] => tokens,
        [_, rest @ ..] => rest,
    }
}

/// The choices after the first.
fn after(choices: &[u8]) -> &[u8]
    ensures { result.now ≡ after choices.now }
{
    match choices {
        [] => choices,
        [_, rest @ ..] => rest,
    }
}

/// Whether a repetition goes on.
fn goes_on(choices: &[u8]) -> bool
    ensures { result ≡ goes_on choices.now }
{
    match choices {
        [] => false,
        [first, ..] => *first == 1,
    }
}

/// The place of the first token.
fn place_in(tokens: &[Spanned]) -> Place
    ensures { result ≡ place_in tokens.now }
{
    match tokens {
        [] => Place {
            file: 0,
            line: 0,
            column: 0,
        },
        [first, ..] => first.place,
    }
}

/// The name in front, copied out of its token.
fn name_of(alloc: Global, tokens: &[Spanned]) -> Result<Ident, NoMemory>
    ensures { IfOk result (λ name. name ≡ name_in tokens.now) }
{
    let place = place_in(tokens);
    let word = word_of(alloc, tokens)?;
    Ok(Ident { place, word })
}

/// The word of the name in front.
fn word_of(alloc: Global, tokens: &[Spanned]) -> Result<Word, NoMemory>
    ensures { IfOk result (λ word. word ≡ word_in tokens.now) }
{
    match tokens {
        [
            Spanned {
                token: Token::Name(word),
                ..
            },
            ..
        ] => Ok(word.copy(alloc)?),
        _ => Ok(Word {
            bytes: Items::new(alloc),
        }),
    }
}
