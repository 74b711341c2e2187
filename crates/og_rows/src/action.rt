//! What a case tries.

/// What a case tries, over its files. The words behind it say over which.
#[derive(Drop)]
pub enum Action {
    /// `words WORD ..`: the tool is called with these words.
    Words,
    /// `tokens FILE`: the tokens of a text of SDL/PR.
    Tokens,
    /// `asn FILE`: the tokens of a text of ASN.1.
    AsnTokens,
    /// `text FILE`: whether a text is one of the C subset.
    Text,
    /// `tree FILE`: the program that a text of the C subset spells.
    Tree,
    /// `names FILE`: a name a line, with its number in a table.
    Names,
    /// `stimuli FILE`: the stimuli over a model with a timer.
    Stimuli,
    /// `read FILE LIMIT`: a file is read whole.
    Read,
    /// `write FILE`: each line of the file is written.
    Write,
    /// `machine FILE COUNT`: statements of the start of a program that is loaded over a model with a timer.
    Machine,
    /// `view FILE ..`: the types and constants of modules of ASN.1.
    View,
    /// `value FILE TYPE TEXTS`: what each line of a file reads as, as a value of a type of a file of ASN.1.
    Value,
}

/// The action of this word.
pub fn action_of(word: &str) -> Option<Action> {
    match word {
        "words" => Some(Action::Words),
        "tokens" => Some(Action::Tokens),
        "asn" => Some(Action::AsnTokens),
        "text" => Some(Action::Text),
        "tree" => Some(Action::Tree),
        "names" => Some(Action::Names),
        "stimuli" => Some(Action::Stimuli),
        "read" => Some(Action::Read),
        "write" => Some(Action::Write),
        "machine" => Some(Action::Machine),
        "view" => Some(Action::View),
        "value" => Some(Action::Value),
        _ => None,
    }
}
