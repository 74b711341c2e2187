//! Which form a call is, by the name of what is called.
ghost use Rattle.std.specs.Prelude.{◌≡◌};
ghost use Rattle.std.specs.List.{list_any};
ghost use Rattle.std.specs.Str.{bytes_eq};
ghost use Rattle.og_names.specs.Folding.{fold_byte as folded_byte, folded};
ghost use Rattle.og_forms.specs.Forms.{call_form as form_of_call};

use crate::form::Form;
use og_ast::CallTree;

/// The form of a CALL that stands alone.
pub fn call_form(call: &CallTree) -> Form
    ensures { result ≡ form_of_call call.now }
{
    let name = call.procedure.bytes();
    if folds_to_one(name, &[b"append", b"write", b"writeln"]) {
        return Form::WriteCall;
    }
    if folds_to_one(name, &[b"set_timer", b"reset_timer"]) {
        return Form::TimerCall;
    }
    Form::ProcedureCall
}

/// Whether bytes fold to one of these words.
fn folds_to_one(name: &[u8], words: &[&[u8]]) -> bool
    ensures { result ≡ list_any (λ word. bytes_eq (folded name.now) word.now) words.now }
{
    words.iter().any(|word| folds_to(name, word))
}

/// Whether bytes fold to these.
fn folds_to(name: &[u8], bytes: &[u8]) -> bool
    ensures { result ≡ bytes_eq (folded name.now) bytes.now }
{
    match (name, bytes) {
        ([], []) => true,
        ([a, name @ ..], [b, bytes @ ..]) => fold_byte(*a) == *b && folds_to(name, bytes),
        _ => false,
    }
}

/// A byte in the form in which names are compared.
fn fold_byte(byte: u8) -> u8
    ensures { result ≡ folded_byte byte }
{
    match byte {
        b'A'..=b'Z' => byte + 32,
        b'-' => b'_',
        _ => byte,
    }
}
