//! Texts with their tokens, and tokens with what they are spelled.

use crate::out::Out;
use crate::texts::bytes_of;
use crate::trouble::Trouble;
use std::alloc::{AllocError, Global};
use vhdl_names_scope::word;
use vhdl_tokens::{
    Kind, TEXT_LIMIT, Token, TokenError, bits, character, identifier, integer, span, string, tokens,
};

/// A token as its kind, its span and its line.
fn push_token(out: &mut Out, token: &Token) {
    out.show(token.kind);
    out.put(" ");
    out.show(token.start);
    out.put("-");
    out.show(token.end);
    out.put(":");
    out.show(token.line);
    out.put(";");
}

fn shown(alloc: Global, list: &[Token]) -> Result<String, AllocError> {
    let mut out = Out::new(alloc);
    for token in list {
        push_token(&mut out, token);
    }
    out.finish_list()
}

/// The tokens of a text, or its fault.
pub fn tokens_came(alloc: Global, given: &str) -> Result<String, Trouble> {
    let text = bytes_of(alloc, given)?;
    if text.len() > TEXT_LIMIT {
        return Err(Trouble::Malformed);
    }
    match tokens(alloc, text.as_slice()) {
        Ok(list) => Ok(shown(alloc, list.as_slice())?),
        Err(TokenError::BadByte { place }) => Ok(format!(in alloc; "BadByte {place}")?),
        Err(TokenError::BadLiteral { place }) => Ok(format!(in alloc; "BadLiteral {place}")?),
        Err(TokenError::NoMemory) => Err(Trouble::NoMemory),
    }
}

/// A token of this kind that is all of a text.
fn whole(kind: Kind, text: &[u8]) -> Token {
    let end = u32::try_from(text.len()).unwrap_or(0);
    Token {
        kind,
        start: 0,
        end,
        line: 1,
    }
}

fn none(alloc: Global) -> Result<String, AllocError> {
    String::from_str(alloc, "none")
}

fn bytes_shown(alloc: Global, bytes: Option<&[u8]>) -> Result<String, AllocError> {
    let Some(bytes) = bytes else {
        return none(alloc);
    };
    let mut out = Out::new(alloc);
    out.bytes(bytes);
    out.finish()
}

fn bits_shown(alloc: Global, bits: Option<&[bool]>) -> Result<String, AllocError> {
    let Some(bits) = bits else {
        return none(alloc);
    };
    let mut out = Out::new(alloc);
    for bit in bits {
        out.put(if *bit { "1" } else { "0" });
    }
    out.finish()
}

fn integer_shown(alloc: Global, number: Option<u128>) -> Result<String, AllocError> {
    match number {
        Some(number) => format!(in alloc; "{number}"),
        None => none(alloc),
    }
}

fn character_shown(alloc: Global, found: Option<u8>) -> Result<String, AllocError> {
    match found {
        Some(byte) => bytes_shown(alloc, Some(&[byte])),
        None => none(alloc),
    }
}

/// The bytes of a token from the third byte of a text on, as far as there are any.
fn behind(text: &[u8]) -> &[u8] {
    let token = Token {
        kind: Kind::Identifier,
        start: 2,
        end: 9,
        line: 1,
    };
    span(text, &token)
}

fn spelled(alloc: Global, asked: &str, text: &[u8]) -> Result<Option<String>, AllocError> {
    let shown = match asked {
        "identifier" => {
            let found = identifier(alloc, text, &whole(Kind::Identifier, text))?;
            bytes_shown(alloc, found.as_ref().map(|found| found.as_slice()))?
        }
        "integer" => integer_shown(alloc, integer(text, &whole(Kind::Int, text)))?,
        "character" => character_shown(alloc, character(text, &whole(Kind::Char, text)))?,
        "string" => {
            let found = string(alloc, text, &whole(Kind::Text, text))?;
            bytes_shown(alloc, found.as_ref().map(|found| found.as_slice()))?
        }
        "bits" => {
            let found = bits(alloc, text, &whole(Kind::Bits, text))?;
            bits_shown(alloc, found.as_ref().map(|found| found.as_slice()))?
        }
        "behind" => bytes_shown(alloc, Some(behind(text)))?,
        "name" => word(alloc, text, &whole(Kind::Identifier, text))?,
        "letter" => word(alloc, text, &whole(Kind::Char, text))?,
        _ => return Ok(None),
    };
    Ok(Some(shown))
}

/// What a token is spelled: what is asked of it, and its text.
pub fn spelling_came(alloc: Global, given: &str) -> Result<String, Trouble> {
    let (asked, written) = given.split_once(" ").ok_or(Trouble::Malformed)?;
    let text = bytes_of(alloc, written)?;
    spelled(alloc, asked, text.as_slice())?.ok_or(Trouble::Malformed)
}
