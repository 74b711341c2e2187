//! Names that are there without a declaration.
ghost use Rattle.std.specs.Prelude.{◌≡◌};
ghost use Rattle.std.specs.List.{list_any};
ghost use Rattle.std.specs.Str.{bytes_eq};
ghost use Rattle.og_names.specs.Folding.{fold_byte as folded_byte, folded};
ghost use Rattle.og_dataview.specs.Scope.{is_boolean, is_integer, is_built_in, is_predefined, is_procedure, is_operator};

use og_asn1::Name;

/// A byte in the form in which names are compared.
pub fn fold_byte(byte: u8) -> u8
    ensures { result ≡ folded_byte byte }
{
    match byte {
        b'A'..=b'Z' => byte + 32,
        b'-' => b'_',
        _ => byte,
    }
}

/// Whether bytes fold to these.
fn folds_to(name: &[u8], bytes: &[u8]) -> bool
    ensures { result ≡ bytes_eq (folded name.now) bytes.now }
{
    match (name, bytes) {
        ([], []) => true,
        ([a, name @ ..], [b, bytes @ ..]) => fold_byte(*a) == *b && folds_to(name, bytes),
        _ => false,
    }
}

/// Whether bytes fold to one of these words.
fn folds_to_one(name: &[u8], words: &[&[u8]]) -> bool
    ensures { result ≡ list_any (λ word. bytes_eq (folded name.now) word.now) words.now }
{
    words.iter().any(|word| folds_to(name, word))
}

/// Whether the name is that of the type BOOLEAN, as names are compared.
pub fn is_boolean(name: &Name) -> bool
    ensures { result ≡ is_boolean name.now }
{
    folds_to(name.word.bytes.as_slice(), b"boolean")
}

/// Whether the name is that of the type INTEGER, as names are compared.
pub fn is_integer(name: &Name) -> bool
    ensures { result ≡ is_integer name.now }
{
    folds_to(name.word.bytes.as_slice(), b"integer")
}

pub fn is_built_in(name: &Name) -> bool
    ensures { result ≡ is_built_in name.now }
{
    is_boolean(name) || is_integer(name)
}

/// Strings and times, by their names with case and hyphens (X.680 clauses 41, 46 and 47).
const PREDEFINED: [&[u8]; 7] = [
    b"NumericString",
    b"PrintableString",
    b"IA5String",
    b"UTF8String",
    b"VisibleString",
    b"UTCTime",
    b"GeneralizedTime",
];

/// Whether the name is that of a type of strings or times, as it is spelt.
pub fn is_predefined(name: &Name) -> bool
    ensures { result ≡ is_predefined name.now }
{
    is_one_of(name.word.bytes.as_slice(), &PREDEFINED)
}

fn is_one_of(name: &[u8], words: &[&[u8]]) -> bool
    ensures { result ≡ list_any (λ word. bytes_eq name.now word.now) words.now }
{
    words.iter().any(|word| name == *word)
}

/// The procedures of SDL/PR that stand outside all scopes.
const PROCEDURES: [&[u8]; 5] = [
    b"set_timer",
    b"reset_timer",
    b"append",
    b"write",
    b"writeln",
];

/// Whether the name is that of a procedure of SDL/PR that stands outside all scopes.
pub fn is_procedure(name: &Name) -> bool
    ensures { result ≡ is_procedure name.now }
{
    folds_to_one(name.word.bytes.as_slice(), &PROCEDURES)
}

/// The operators of SDL/PR that stand outside all scopes.
const OPERATORS: [&[u8]; 2] = [b"length", b"present"];

/// Whether the name is that of an operator of SDL/PR, of the kind of variables and constants.
pub fn is_operator(name: &Name) -> bool
    ensures { result ≡ is_operator name.now }
{
    folds_to_one(name.word.bytes.as_slice(), &OPERATORS)
}
