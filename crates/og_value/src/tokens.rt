//! The parts of a text: blanks, marks, words and digits.
ghost use Rattle.std.specs.Prelude.{◌≡◌, ◌+◌, ◌++◌, ◌<◌, ◌≤◌, ℕ, suc, length, option_map, MatchOption, IfSome};
ghost use Rattle.og_value.specs.Bytes.{is_blank, is_letter, is_digit, is_word, begins, run, behind, truth_of};
ghost use Rattle.og_value.specs.Scans.{test_of, past_blanks, mark_here, mark_at, digits_at, word_at, name_at, minus_digits_at};

/// What a byte may be: white space in a line, a digit, or a part of a name.
#[derive(Clone, Copy)]
pub enum Class {
    Blank,
    Digit,
    Word,
}

fn is_in(class: Class, byte: u8) -> bool
    ensures { result ≡ test_of class byte }
{
    match class {
        Class::Blank => byte == b' ' || byte == b'\t',
        Class::Digit => byte.is_ascii_digit(),
        Class::Word => byte.is_ascii_alphanumeric() || byte == b'_',
    }
}

/// What stands behind the bytes of the class in front.
fn past(class: Class, bytes: &[u8]) -> &[u8]
    ensures found { result.now ≡ behind (test_of class) bytes.now }
    ensures within { length result.now ≤ length bytes.now }
{
    let mut rest = bytes;
    while let [first, more @ ..] = rest {
        if !is_in(class, *first) {
            return rest;
        }
        rest = more;
    }
    rest
}

/// What stands behind the blanks in front.
pub fn past_blanks(bytes: &[u8]) -> &[u8]
    ensures found { result.now ≡ past_blanks bytes.now }
    ensures within { length result.now ≤ length bytes.now }
{
    past(Class::Blank, bytes)
}

/// The bytes of the class in front, and what stands behind them.
fn cut(class: Class, bytes: &[u8]) -> (&[u8], &[u8])
    ensures front { result.0.now ≡ run (test_of class) bytes.now }
    ensures back { result.1.now ≡ behind (test_of class) bytes.now }
{
    let rest = past(class, bytes);
    bytes.split_at(bytes.len() - rest.len())
}

/// One less than a number that is not 0.
pub fn one_less(n: usize) -> Option<usize>
    ensures { MatchOption result (n ≡ 0) (λ m. n ≡ suc m) }
{
    if n == 0 { None } else { Some(n - 1) }
}

/// What stands behind the mark, where it stands in front.
pub fn mark_here(mark: u8, bytes: &[u8]) -> Option<&[u8]>
    ensures { option_map (λ rest. (tt, rest.now)) result ≡ mark_here mark bytes.now }
{
    match bytes {
        [first, rest @ ..] if *first == mark => Some(rest),
        _ => None,
    }
}

/// The same behind blanks.
pub fn mark_at(mark: u8, bytes: &[u8]) -> Option<&[u8]>
    ensures { option_map (λ rest. (tt, rest.now)) result ≡ mark_at mark bytes.now }
{
    mark_here(mark, past_blanks(bytes))
}

/// The digits in front, and what stands behind them.
#[tactic(auto, unfolding(crate::specs::Scans::digits_at))]
pub fn digits_at(bytes: &[u8]) -> Option<(&[u8], &[u8])>
    ensures { option_map (λ p. (p.0.now, p.1.now)) result ≡ digits_at bytes.now }
{
    match bytes {
        [first, ..] if first.is_ascii_digit() => Some(cut(Class::Digit, bytes)),
        _ => None,
    }
}

/// The digits behind a sign.
pub fn minus_digits_at(bytes: &[u8]) -> Option<(&[u8], &[u8])>
    ensures { option_map (λ p. (p.0.now, p.1.now)) result ≡ minus_digits_at bytes.now }
{
    let more = mark_here(b'-', bytes)?;
    digits_at(past_blanks(more))
}

/// The word in front, and what stands behind it.
#[tactic(auto, unfolding(crate::specs::Scans::word_at))]
pub fn word_at(bytes: &[u8]) -> Option<(&[u8], &[u8])>
    ensures { option_map (λ p. (p.0.now, p.1.now)) result ≡ word_at bytes.now }
{
    match bytes {
        [first, ..] if first.is_ascii_alphabetic() => Some(cut(Class::Word, bytes)),
        _ => None,
    }
}

/// TRUE and FALSE in capitals, which are no names.
pub fn truth_of(word: &[u8]) -> Option<bool>
    ensures { result ≡ truth_of word.now }
{
    if word == b"TRUE".as_slice() {
        return Some(true);
    }
    if word == b"FALSE".as_slice() {
        return Some(false);
    }
    None
}

/// The name in front, and what stands behind it.
#[tactic(auto, unfolding(crate::specs::Scans::name_at))]
pub fn name_at(bytes: &[u8]) -> Option<(&[u8], &[u8])>
    ensures { option_map (λ p. (p.0.now, p.1.now)) result ≡ name_at bytes.now }
{
    let (word, rest) = word_at(bytes)?;
    if truth_of(word).is_some() {
        return None;
    }
    Some((word, rest))
}
