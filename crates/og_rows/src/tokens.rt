//! The tokens of texts of SDL/PR and of ASN.1.

use crate::escape::show_bytes;
use og_base::{ModelError, Violation};
use og_lexer::{Comment, Language, Lexed, Spanned, Token, lex_asn, lex_sdl};
use std::alloc::{AllocError, Global};

/// Appends a line for each token and then for each comment, with its place and its bytes; or the rule that the text breaks.
pub fn show_tokens(
    alloc: Global,
    language: Language,
    text: &[u8],
    out: &mut String,
) -> Result<(), AllocError> {
    if text.len() > 1000000 {
        return out.push_str("too long\n");
    }
    let lexed = match language {
        Language::Sdl => lex_sdl(alloc, 0, text),
        Language::Asn => lex_asn(alloc, 0, text),
    };
    match lexed {
        Ok(lexed) => show_lexed(&lexed, out),
        Err(ModelError::Broken(Violation { rule, place })) => {
            let line = place.line;
            let column = place.column;
            write!(out, "{rule:?} {line}:{column}\n")
        }
        Err(_) => out.push_str("no memory\n"),
    }
}

fn show_lexed(lexed: &Lexed, out: &mut String) -> Result<(), AllocError> {
    for spanned in lexed.tokens.as_slice() {
        show_token(&spanned.token, out)?;
        let Spanned { start, end, .. } = spanned;
        let line = spanned.place.line;
        let column = spanned.place.column;
        write!(out, " {line}:{column} {start}-{end}\n")?;
    }
    for comment in lexed.comments.as_slice() {
        let Comment { place, start, end } = *comment;
        let line = place.line;
        let column = place.column;
        write!(out, "comment {line}:{column} {start}-{end}\n")?;
    }
    Ok(())
}

fn show_token(token: &Token, out: &mut String) -> Result<(), AllocError> {
    match token {
        Token::Name(word) => {
            out.push_str("name ")?;
            show_bytes(word.bytes.as_slice(), out)
        }
        Token::Keyword(keyword) => write!(out, "{keyword:?}"),
        Token::Number(number) => write!(out, "{number}"),
        Token::Text(word) => {
            out.push_str("text ")?;
            show_bytes(word.bytes.as_slice(), out)
        }
        Token::Mark(mark) => write!(out, "{mark:?}"),
        Token::AsnKeyword(keyword) => write!(out, "{keyword:?}"),
        Token::AsnMark(mark) => write!(out, "{mark:?}"),
        Token::End => out.push_str("end"),
    }
}
