//! The words of symbols.
ghost use Rattle.std.specs.Prelude.{◌≡◌, map};
ghost use Rattle.std.specs.Char.{to_ascii_uppercase};
ghost use Rattle.std.specs.Str.{bytes_eq};
ghost use Rattle.og_cif.specs.Form.{symbol_text};
ghost use Rattle.og_cif.specs.Scans.{symbol_in};

use crate::Symbol;

/// Each symbol once.
const SYMBOLS: [Symbol; 19] = [
    Symbol::Start,
    Symbol::State,
    Symbol::Input,
    Symbol::Output,
    Symbol::Task,
    Symbol::Decision,
    Symbol::Answer,
    Symbol::Nextstate,
    Symbol::Join,
    Symbol::Label,
    Symbol::Procedurecall,
    Symbol::Procedure,
    Symbol::Provided,
    Symbol::Connect,
    Symbol::Return,
    Symbol::Stop,
    Symbol::Text,
    Symbol::Comment,
    Symbol::Process,
];

impl Symbol {
    /// The word of the symbol, in capitals.
    #[tactic(auto, unfolding(crate::specs::Form::symbol_text))]
    pub fn text(self) -> &'static [u8]
        ensures { result.now ≡ symbol_text self }
    {
        match self {
            Symbol::Start => b"START",
            Symbol::State => b"STATE",
            Symbol::Input => b"INPUT",
            Symbol::Output => b"OUTPUT",
            Symbol::Task => b"TASK",
            Symbol::Decision => b"DECISION",
            Symbol::Answer => b"ANSWER",
            Symbol::Nextstate => b"NEXTSTATE",
            Symbol::Join => b"JOIN",
            Symbol::Label => b"LABEL",
            Symbol::Procedurecall => b"PROCEDURECALL",
            Symbol::Procedure => b"PROCEDURE",
            Symbol::Provided => b"PROVIDED",
            Symbol::Connect => b"CONNECT",
            Symbol::Return => b"RETURN",
            Symbol::Stop => b"STOP",
            Symbol::Text => b"TEXT",
            Symbol::Comment => b"COMMENT",
            Symbol::Process => b"PROCESS",
        }
    }
}

/// Whether the word is these capitals in any case.
pub fn is_spelt(word: &[u8], capitals: &[u8]) -> bool
    ensures { result ≡ bytes_eq (map to_ascii_uppercase word.now) capitals.now }
{
    if word.len() != capitals.len() {
        return false;
    }
    for (at, byte) in word.iter().enumerate() {
        if byte.to_ascii_uppercase() != capitals[at] {
            return false;
        }
    }
    true
}

/// The symbol that the word is.
pub fn symbol_of(word: &[u8]) -> Option<Symbol>
    ensures { result ≡ symbol_in SYMBOLS (map to_ascii_uppercase word.now) }
{
    symbol_among(&SYMBOLS, word)
}

fn symbol_among(symbols: &[Symbol], word: &[u8]) -> Option<Symbol>
    ensures { result ≡ symbol_in symbols.now (map to_ascii_uppercase word.now) }
{
    for symbol in symbols {
        if is_spelt(word, symbol.text()) {
            return Some(*symbol);
        }
    }
    None
}
