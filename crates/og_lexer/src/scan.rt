ghost use Rattle.std.specs.Prelude.{◌==◌, ◌&&◌, ◌<◌, not, IsTrue, drop, slice_index, ◌≡◌, ◌≤◌, IfSome, ◌+◌, ◌-◌, ◌^◌, min, length, true, Option};
ghost use Rattle.std.specs.List.{prefix_len};
ghost use Rattle.og_lexer.specs.Bytes.{is_word, is_digit, begins, number_of};
ghost use Rattle.og_lexer.specs.AsnBytes.{joins};
ghost use Rattle.og_lexer.specs.AsnFront.{name_len, is_not, pair_of, nested_end};
ghost use Rattle.og_lexer.specs.Front.{pair_end, quote_end, end_len};

use crate::asn_words::is_alphanumeric;
use crate::words::{is_digit, is_word};

/// Where a pair of bytes ends that is looked for.
#[derive(Clone, Copy, Debug, PartialEq, Eq)]
pub enum PairEnd {
    /// So many bytes up to the end of the pair.
    Closed(usize),
    /// No pair in so many bytes, behind which a line or everything ends.
    Open(usize),
}

/// How many letters, digits and underlines stand in front.
pub fn word_len(bytes: &[u8]) -> usize
    ensures found { result ≡ prefix_len is_word bytes.now }
    ensures within { result ≤ length bytes.now }
{
    let mut len = 0;
    while len < bytes.len() && is_word(bytes[len]) {
        len += 1;
    }
    len
}

/// How many digits stand in front.
pub fn digits_len(bytes: &[u8]) -> usize
    ensures found { result ≡ prefix_len is_digit bytes.now }
    ensures within { result ≤ length bytes.now }
{
    let mut len = 0;
    while len < bytes.len() && is_digit(bytes[len]) {
        len += 1;
    }
    len
}

/// The number of the digits, or the greatest `u64` where it is more.
pub fn number_value(digits: &[u8]) -> u64
    ensures { result ≡ min (number_of digits.now) (2 ^ 64 - 1) }
{
    let mut value: u64 = 0;
    for digit in digits {
        value = value
            .saturating_mul(10)
            .saturating_add(u64::from(digit.saturating_sub(b'0')));
    }
    value
}

/// Where the first pair of `first` and `second` ends, in the first line alone if `in_line` says so.
pub fn pair_end(bytes: &[u8], first: u8, second: u8, in_line: bool) -> PairEnd
    ensures found { result ≡ pair_end first second in_line bytes.now }
    ensures within { end_len result ≤ length bytes.now }
{
    let mut at = 0;
    while at < bytes.len() {
        if ends_line(bytes[at], in_line) {
            return PairEnd::Open(at);
        }
        if is_pair(bytes, at, first, second) {
            return PairEnd::Closed(at + 2);
        }
        at += 1;
    }
    PairEnd::Open(at)
}

fn ends_line(byte: u8, in_line: bool) -> bool
    ensures { result ≡ (in_line && (byte == 10)) }
{
    in_line && byte == b'\n'
}

/// Whether the pair stands at the byte `at`.
fn is_pair(bytes: &[u8], at: usize, first: u8, second: u8) -> bool
    requires { at < length bytes.now }
    ensures found { result ≡ ((slice_index bytes.now at == first) && begins second (drop (at + 1) bytes.now)) }
    ensures within { IsTrue result → at + 2 ≤ length bytes.now }
{
    bytes[at] == first && at + 1 < bytes.len() && bytes[at + 1] == second
}

/// How many bytes a text has behind its first quote, up to the end of its last one.
pub fn quote_end(bytes: &[u8]) -> Option<usize>
    ensures found { result ≡ quote_end true bytes.now }
    ensures within { IfSome result (λ n. n ≤ length bytes.now) }
{
    let mut inside = true;
    let mut at = 0;
    while at < bytes.len() {
        let quote = bytes[at] == b'\'';
        if is_behind(inside, quote) {
            return Some(at);
        }
        inside = inside != quote;
        at += 1;
    }
    if inside { None } else { Some(at) }
}

/// Whether a text ended before a byte that is a quote or is not one.
fn is_behind(inside: bool, quote: bool) -> bool
    ensures { result ≡ (not inside && not quote) }
{
    !inside && !quote
}

/// How many bytes in front go on with a name of ASN.1.
pub fn name_len(bytes: &[u8]) -> usize
    ensures found { result ≡ name_len bytes.now }
    ensures within { result ≤ length bytes.now }
{
    let mut len = 0;
    while len < bytes.len() && joins(bytes, len) {
        len += 1;
    }
    len
}

/// Whether the byte `at` goes on with a name: a letter or a digit, or a hyphen with one behind it.
fn joins(bytes: &[u8], at: usize) -> bool
    requires { at < length bytes.now }
    ensures { result ≡ joins (slice_index bytes.now at) (drop (at + 1) bytes.now) }
{
    is_alphanumeric(bytes[at])
        || (bytes[at] == b'-' && at + 1 < bytes.len() && is_alphanumeric(bytes[at + 1]))
}

/// How many bytes in front are not this one.
pub fn others_len(bytes: &[u8], byte: u8) -> usize
    ensures found { result ≡ prefix_len (is_not byte) bytes.now }
    ensures within { result ≤ length bytes.now }
{
    let mut len = 0;
    while len < bytes.len() && bytes[len] != byte {
        len += 1;
    }
    len
}

/// What two bytes side by side do in a comment of ASN.1.
#[derive(Clone, Copy, Debug, PartialEq, Eq)]
pub enum Pair {
    Opens,
    Closes,
    Neither,
}

fn pair_of(first: u8, second: u8) -> Pair
    ensures { result ≡ pair_of first second }
{
    match (first, second) {
        (b'/', b'*') => Pair::Opens,
        (b'*', b'/') => Pair::Closes,
        _ => Pair::Neither,
    }
}

/// How many bytes a comment of ASN.1 has behind its opening pair, the comments inside it and its closing pair among them.
pub fn nested_end(bytes: &[u8]) -> Option<usize>
    ensures found { result ≡ nested_end 0 bytes.now }
    ensures within { IfSome result (λ n. n ≤ length bytes.now) }
{
    let mut open: usize = 0;
    let mut at = 0;
    while at + 1 < bytes.len() {
        match pair_of(bytes[at], bytes[at + 1]) {
            Pair::Opens => {
                open += 1;
                at += 2;
            }
            Pair::Closes if open == 0 => return Some(at + 2),
            Pair::Closes => {
                open -= 1;
                at += 2;
            }
            Pair::Neither => at += 1,
        }
    }
    None
}
