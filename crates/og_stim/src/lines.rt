//! The lines of a text.
ghost use Rattle.std.specs.Prelude.{◌≡◌, ◌≤◌, ◌<◌, ◌==◌, ◌∷◌, not, length, drop};
ghost use Rattle.std.specs.List.{prefix_len, list_all};
ghost use Rattle.og_value.specs.Bytes.{is_blank as blank};
ghost use Rattle.og_stim.specs.Lines.{lines_of, test_of, is_skipped as skipped, begins_with, without_return as returnless};

/// A line without its end, and how many bytes of the text it takes with its end.
#[derive(Clone, Copy)]
pub struct Line<'a> {
    pub bytes: &'a [u8],
    pub taken: usize,
}

/// The first line of a text that has one.
pub fn first_line(text: &[u8]) -> Line<'_>
    requires { 0 < length text.now }
    ensures lines { lines_of text.now ≡ result.bytes.now ∷ lines_of (drop result.taken text.now) }
    ensures within { result.taken ≤ length text.now }
    ensures some { 0 < result.taken }
{
    let len = run_len(Class::Line, text);
    let (bytes, more) = text.split_at(len);
    if more.is_empty() {
        return Line { bytes, taken: len };
    }
    Line {
        bytes: without_return(bytes),
        taken: len + 1,
    }
}

/// What a byte may be: anything but LF, or white space in a line.
#[derive(Clone, Copy)]
enum Class {
    Line,
    Blank,
}

/// How many bytes of the class stand in front.
fn run_len(class: Class, bytes: &[u8]) -> usize
    ensures found { result ≡ prefix_len (test_of class) bytes.now }
    ensures within { result ≤ length bytes.now }
{
    let mut len = 0;
    while len < bytes.len() && is_in(class, bytes[len]) {
        len += 1;
    }
    len
}

fn is_in(class: Class, byte: u8) -> bool
    ensures { result ≡ test_of class byte }
{
    match class {
        Class::Line => byte != 10,
        Class::Blank => byte == 32 || byte == 9,
    }
}

/// The line without a CR at its end.
fn without_return(line: &[u8]) -> &[u8]
    ensures { result.now ≡ returnless line.now }
{
    if line.is_empty() {
        return line;
    }
    let (front, last) = line.split_at(line.len() - 1);
    if last[0] == 13 { front } else { line }
}

/// The line is blank, or a comment.
pub fn is_skipped(line: &[u8]) -> bool
    ensures { result ≡ skipped line.now }
{
    is_all_blank(line) || begins_with_hash(line)
}

fn begins_with_hash(line: &[u8]) -> bool
    ensures { result ≡ begins_with 35 line.now }
{
    match line {
        [] => false,
        [first, ..] => *first == b'#',
    }
}

/// Nothing but blanks stands in the bytes.
pub fn is_all_blank(bytes: &[u8]) -> bool
    ensures { result ≡ list_all blank bytes.now }
{
    run_len(Class::Blank, bytes) == bytes.len()
}
