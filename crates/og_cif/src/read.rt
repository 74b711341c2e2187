//! One comment as a box.
#![tactic(auto, using(og_names::proofs::Loops::loops))]

ghost use Rattle.std.specs.Prelude.{◌≡◌, ◌≤◌, ◌↔◌, ◌^◌, ◌-◌, length, min, option_map, Some};
ghost use Rattle.std.specs.List.{prefix_len};
ghost use Rattle.og_lexer.specs.Bytes.{number_of};
ghost use Rattle.og_cif.specs.declared.CifBox.{CifBox};
ghost use Rattle.og_cif.specs.Form.{IsBox};
ghost use Rattle.og_cif.specs.Scans.{test_of, run, behind, past_white, sign_here, sign_at, cif_at, symbol_at, number_of_sign, digits_here, number_at, pair_at, closed, box_at, box_of};

use crate::symbols::{is_spelt, symbol_of};
use crate::{CifBox, Symbol};

/// The box that the comment is, from its `/*` to its `*/`.
pub fn read_cif(comment: &[u8]) -> Option<CifBox>
    // The comment is a box exactly where that box is the answer.
    ensures { (box : CifBox) → IsBox box comment.now ↔ (result ≡ Some box) }
{
    box_of(comment)
}

#[tactic(auto, unfolding(crate::specs::Scans::box_of))]
fn box_of(comment: &[u8]) -> Option<CifBox>
    ensures { result ≡ box_of comment.now }
{
    let rest = sign_here(b'/', comment)?;
    let inside = sign_here(b'*', rest)?;
    box_at(inside)
}

#[tactic(auto, unfolding(crate::specs::Scans::box_at))]
fn box_at(inside: &[u8]) -> Option<CifBox>
    ensures { result ≡ box_at inside.now }
{
    let rest = cif_at(inside)?;
    let (symbol, rest) = symbol_at(rest)?;
    let (x, y, rest) = pair_at(rest)?;
    let rest = sign_at(b',', rest)?;
    let (w, h, rest) = pair_at(rest)?;
    let frame = CifBox { symbol, x, y, w, h };
    if past_white(rest) == b"*/".as_slice() {
        Some(frame)
    } else {
        None
    }
}

/// What a byte of a box may be.
#[derive(Clone, Copy)]
pub enum Class {
    White,
    Digit,
    Letter,
}

fn is_in(class: Class, byte: u8) -> bool
    ensures { result ≡ test_of class byte }
{
    match class {
        Class::White => byte == b' ' || byte == b'\t' || byte == b'\r' || byte == b'\n',
        Class::Digit => byte.is_ascii_digit(),
        Class::Letter => byte.is_ascii_alphabetic(),
    }
}

/// How many bytes of the class stand in front.
fn len_of(class: Class, bytes: &[u8]) -> usize
    ensures found { result ≡ prefix_len (test_of class) bytes.now }
    ensures within { result ≤ length bytes.now }
{
    let mut len = 0;
    while len < bytes.len() && is_in(class, bytes[len]) {
        len += 1;
    }
    len
}

/// The bytes of the class in front, and what stands behind them.
fn cut(class: Class, bytes: &[u8]) -> (&[u8], &[u8])
    ensures front { result.0.now ≡ run (test_of class) bytes.now }
    ensures back { result.1.now ≡ behind (test_of class) bytes.now }
{
    bytes.split_at(len_of(class, bytes))
}

fn past_white(bytes: &[u8]) -> &[u8]
    ensures { result.now ≡ past_white bytes.now }
{
    let (_, rest) = cut(Class::White, bytes);
    rest
}

/// What stands behind the sign, where it stands in front.
fn sign_here(sign: u8, bytes: &[u8]) -> Option<&[u8]>
    ensures { option_map (λ rest. (tt, rest.now)) result ≡ sign_here sign bytes.now }
{
    match bytes {
        [first, rest @ ..] if *first == sign => Some(rest),
        _ => None,
    }
}

/// What stands behind the sign, where it stands in front behind white space or none.
fn sign_at(sign: u8, bytes: &[u8]) -> Option<&[u8]>
    ensures { option_map (λ rest. (tt, rest.now)) result ≡ sign_at sign bytes.now }
{
    sign_here(sign, past_white(bytes))
}

#[tactic(auto, unfolding(crate::specs::Scans::cif_at))]
fn cif_at(bytes: &[u8]) -> Option<&[u8]>
    ensures { option_map (λ rest. (tt, rest.now)) result ≡ cif_at bytes.now }
{
    let (word, rest) = cut(Class::Letter, past_white(bytes));
    match rest {
        [first, ..] if is_in(Class::White, *first) && is_spelt(word, b"CIF") => Some(rest),
        _ => None,
    }
}

#[tactic(auto, unfolding(crate::specs::Scans::symbol_at))]
fn symbol_at(bytes: &[u8]) -> Option<(Symbol, &[u8])>
    ensures { option_map (λ p. (p.0, p.1.now)) result ≡ symbol_at bytes.now }
{
    let (word, rest) = cut(Class::Letter, past_white(bytes));
    let symbol = symbol_of(word)?;
    Some((symbol, rest))
}

/// Two numbers in brackets, and what stands behind them.
#[tactic(auto, unfolding(crate::specs::Scans::pair_at))]
fn pair_at(bytes: &[u8]) -> Option<(i32, i32, &[u8])>
    ensures { option_map (λ p. ((p.0, p.1), p.2.now)) result ≡ pair_at bytes.now }
{
    let rest = sign_at(b'(', bytes)?;
    let (x, rest) = number_at(rest)?;
    let rest = sign_at(b',', rest)?;
    let (y, rest) = number_at(rest)?;
    let rest = sign_at(b')', rest)?;
    Some((x, y, rest))
}

#[tactic(auto, unfolding(crate::specs::Scans::number_at))]
fn number_at(bytes: &[u8]) -> Option<(i32, &[u8])>
    ensures { option_map (λ p. (p.0, p.1.now)) result ≡ number_at bytes.now }
{
    let rest = past_white(bytes);
    match rest {
        [b'-', digits @ ..] => digits_here(true, digits),
        _ => digits_here(false, rest),
    }
}

/// The number of the digits in front, with its sign, and what stands behind them.
fn digits_here(negative: bool, bytes: &[u8]) -> Option<(i32, &[u8])>
    ensures { option_map (λ p. (p.0, p.1.now)) result ≡ digits_here negative bytes.now }
{
    match bytes {
        [first, ..] if first.is_ascii_digit() => {
            let (digits, rest) = cut(Class::Digit, bytes);
            let number = number_of_sign(negative, digits)?;
            Some((number, rest))
        }
        _ => None,
    }
}

/// The number of the digits, or the greatest `u64` where it is more.
fn magnitude(digits: &[u8]) -> u64
    ensures { result ≡ min (number_of digits.now) (2 ^ 64 - 1) }
{
    let mut value: u64 = 0;
    for digit in digits {
        value = value
            .saturating_mul(10)
            .saturating_add(u64::from(digit.saturating_sub(b'0')));
    }
    value
}

/// The number of the digits with its sign, where it has 32 bits.
fn number_of_sign(negative: bool, digits: &[u8]) -> Option<i32>
    ensures { result ≡ number_of_sign negative digits.now }
{
    let magnitude = magnitude(digits);
    if negative && magnitude <= 1 << 31 {
        return Some((-(magnitude as i64)) as i32);
    }
    if !negative && magnitude < 1 << 31 {
        return Some(magnitude as i32);
    }
    None
}
