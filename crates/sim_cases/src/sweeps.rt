//! Texts of which each token is needed: one that ends before a token, or has a wrong word in its place, is refused at
//! that token.

use crate::answers::{answer, compare};
use crate::calls::run_words;
use crate::report::{Place, Report};
use crate::texts::bytes_of;
use crate::trouble::Trouble;
use sim_host::Name;
use std::alloc::{AllocError, Global};
use vhdl_tokens::{Delimiter, Kind, TEXT_LIMIT, Token, tokens};

/// The tokens of a text.
pub fn tokens_of(alloc: Global, text: &[u8]) -> Result<Vec<Token>, Trouble> {
    if text.len() > TEXT_LIMIT {
        return Err(Trouble::Malformed);
    }
    match tokens(alloc, text) {
        Ok(list) => Ok(list),
        Err(_) => Err(Trouble::Malformed),
    }
}

fn front<'a>(text: &'a [u8], token: &Token) -> &'a [u8] {
    text.get(..token.start as usize).unwrap_or(text)
}

/// What stands in the place of a token: a reserved word that may stand nowhere. A tick behind it is to stay a tick, as
/// behind a bracket.
fn wrong_word(next: Option<&Token>) -> &'static [u8] {
    match next {
        Some(token) if token.kind == Kind::Delimiter(Delimiter::Tick) => b" vunit )",
        _ => b" vunit ",
    }
}

/// The text with a wrong word in the place of a token.
fn spoiled(
    alloc: Global,
    text: &[u8],
    token: &Token,
    next: Option<&Token>,
) -> Result<Vec<u8>, AllocError> {
    let mut spoiled = Vec::from_slice(alloc, front(text, token))?;
    spoiled.extend_from_slice(wrong_word(next))?;
    spoiled.extend_from_slice(text.get(token.end as usize..).unwrap_or(b""))?;
    Ok(spoiled)
}

fn syntax_fault(alloc: Global, number: usize) -> Result<String, AllocError> {
    format!(in alloc; "Syntax {number}")
}

/// A row `TEXT`: the text is of the grammar, and each of its tokens is needed.
pub fn try_sweep(alloc: Global, place: Place<'_>, report: &mut Report) -> Result<(), Trouble> {
    let text = bytes_of(alloc, place.text)?;
    let list = tokens_of(alloc, text.as_slice())?;
    let words = run_words(alloc)?;
    let came = answer(alloc, words.as_slice(), text.as_slice())?;
    compare(place, "read", came.as_str(), report);
    for (number, token) in list.iter().enumerate() {
        let next = list.as_slice().get(number.saturating_add(1));
        try_token(
            alloc,
            place,
            words.as_slice(),
            text.as_slice(),
            (number, token, next),
            report,
        )?;
    }
    Ok(())
}

fn try_token(
    alloc: Global,
    place: Place<'_>,
    words: &[Name],
    text: &[u8],
    at: (usize, &Token, Option<&Token>),
    report: &mut Report,
) -> Result<(), Trouble> {
    let (number, token, next) = at;
    let wanted = syntax_fault(alloc, number)?;
    let cut = answer(alloc, words, front(text, token))?;
    report.case(place, wanted.as_str(), cut.as_str());
    let wrong = spoiled(alloc, text, token, next)?;
    let wrong = answer(alloc, words, wrong.as_slice())?;
    report.case(place, wanted.as_str(), wrong.as_str());
    Ok(())
}
