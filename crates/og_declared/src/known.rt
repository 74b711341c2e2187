//! Names that are there without a declaration.
ghost use Rattle.std.specs.Prelude.{◌≡◌};
ghost use Rattle.std.specs.List.{list_any};
ghost use Rattle.std.specs.Str.{bytes_eq};
ghost use Rattle.og_names.specs.Folding.{fold_byte as folded_byte, folded};
ghost use Rattle.og_system.specs.Scopes.{built_in};
ghost use Rattle.og_declared.specs.Sorts.{built_in_types};

/// Whether the name is one of a type that needs no declaration.
pub fn is_built_in_type(name: &[u8]) -> bool
    ensures { result ≡ list_any (bytes_eq (folded name.now)) built_in_types }
{
    folds_to_one(name, &[b"boolean", b"integer"])
}

/// Whether the name is one of a type, a procedure or an operator that needs no declaration.
pub fn is_built_in(name: &[u8]) -> bool
    ensures { result ≡ list_any (bytes_eq (folded name.now)) built_in }
{
    folds_to_one(
        name,
        &[
            b"boolean",
            b"integer",
            b"set_timer",
            b"reset_timer",
            b"append",
            b"write",
            b"writeln",
            b"length",
            b"present",
        ],
    )
}

/// Whether bytes fold to one of these words.
fn folds_to_one(name: &[u8], words: &[&[u8]]) -> bool
    ensures { result ≡ list_any (λ word. bytes_eq (folded name.now) word.now) words.now }
{
    words.iter().any(|word| folds_to(name, word))
}

/// Whether bytes fold to these.
fn folds_to(name: &[u8], bytes: &[u8]) -> bool
    ensures { result ≡ bytes_eq (folded name.now) bytes.now }
{
    match (name, bytes) {
        ([], []) => true,
        ([a, name @ ..], [b, bytes @ ..]) => fold_byte(*a) == *b && folds_to(name, bytes),
        _ => false,
    }
}

/// A byte in the form in which names are compared.
fn fold_byte(byte: u8) -> u8
    ensures { result ≡ folded_byte byte }
{
    match byte {
        b'A'..=b'Z' => byte + 32,
        b'-' => b'_',
        _ => byte,
    }
}
