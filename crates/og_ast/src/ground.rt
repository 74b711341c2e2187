//! Names, texts and the ends of constructs (Z.101 clause 6.1; Z.106).
ghost use Rattle.std.specs.Prelude.{◌≡◌, ◌≤◌, length, IsTrue};
ghost use Rattle.std.specs.List.{list_all};
ghost use Rattle.og_ast.specs.Names.{is_name, is_name_byte};

use og_base::Place;
use og_names::Word;
use sqlite_items::Items;

/// A name as it is written: a letter, and then letters, digits and underscores, at most 64 in all.
#[derive(Drop)]
pub struct Name {
    pub place: Place,
    pub word: Word,
    pub ghost spelling: { IsTrue (is_name word.bytes) },
}

impl Name {
    /// The bytes of the name.
    pub fn bytes(&self) -> &[u8]
        ensures value { result.now ≡ self.now.word.bytes }
        ensures short { length result.now ≤ 64 }
    {
        self.word.bytes.as_slice()
    }
}

/// Whether bytes are spelt like a name.
pub fn is_name(bytes: &[u8]) -> bool
    ensures { result ≡ is_name bytes.now }
{
    match bytes {
        [] => false,
        [first, rest @ ..] => {
            if !first.is_ascii_alphabetic() {
                return false;
            }
            if rest.len() >= 64 {
                return false;
            }
            are_name_bytes(rest)
        }
    }
}

/// Whether each byte may stand in a name behind its first letter.
fn are_name_bytes(bytes: &[u8]) -> bool
    ensures { result ≡ list_all is_name_byte bytes.now }
{
    bytes.iter().all(|byte| is_name_byte(*byte))
}

/// Whether a byte may stand in a name behind its first letter.
fn is_name_byte(byte: u8) -> bool
    ensures { result ≡ is_name_byte byte }
{
    byte.is_ascii_alphanumeric() || byte == b'_'
}

/// `name { "-" name }`, a name that in ASN.1 is written with hyphens. The hyphens are taken for underscores.
#[derive(Drop)]
pub struct HyphenedName {
    /// The names between the hyphens, one at least.
    pub parts: Items<Name>,
}

/// A character string. Its bytes are those between its outer quotes, where a quote stands twice.
#[derive(Drop)]
pub struct TextTree {
    pub place: Place,
    pub text: Word,
}

/// `end = [ COMMENT text ] ";"`. Its place is that of `;`.
#[derive(Drop)]
pub struct EndTree {
    pub place: Place,
    pub comment: Option<TextTree>,
}

/// What closes a construct: its END keyword, which stands at the place, `[ name ] end`. The name is not compared.
#[derive(Drop)]
pub struct ClosingTree {
    pub place: Place,
    pub name: Option<Name>,
    pub end: EndTree,
}
