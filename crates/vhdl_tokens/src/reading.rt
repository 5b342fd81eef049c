//! A text as its tokens.

ghost use Rattle.std.specs.Prelude.{◌≡◌, ℕ, ◌+◌, ◌≤◌, ◌<◌, ◌^◌, ◌==◌, ◌++◌, ◌⊎◌, List, length, slice_index, count_by, All, IsTrue, ◌↔◌, IfOk, IfErr, OnOk, IsOkAnd, IsErrOf};
ghost use Rattle.vhdl_tokens.specs.declared.token.Token.{Token};
ghost use Rattle.vhdl_tokens.specs.declared.token.TokenError.{TokenError};
ghost use Rattle.vhdl_tokens.specs.Text.{Tokens, IsFault, Refuses, is_name_end, name_behind, token_of, begins_token, BeginsToken, fault_of};
ghost use Rattle.vhdl_tokens.specs.Meaning.{IsTokenOf, StandInOrder};

use crate::scan::{piece_at, single};
use crate::token::{Delimiter, Kind, Reserved, Token, TokenError};
use std::alloc::Global;

/// How many bytes a text may have.
pub const TEXT_LIMIT: usize = 1_048_576;

// Whether an apostrophe behind a token of this kind is a delimiter.
fn is_name_end(kind: Kind) -> bool
    ensures { result ≡ is_name_end kind }
{
    match kind {
        Kind::Identifier => true,
        Kind::Word(Reserved::All) => true,
        Kind::Delimiter(Delimiter::RightParen) => true,
        _ => false,
    }
}

// The same behind any piece.
fn name_behind(kind: Option<Kind>, after_name: bool) -> bool
    ensures { result ≡ name_behind kind after_name }
{
    match kind {
        None => after_name,
        Some(kind) => is_name_end(kind),
    }
}

// How many line feeds there are.
fn feeds(bytes: &[u8]) -> usize
    ensures count { result ≡ count_by (λ b. b == 10) bytes.now }
    ensures within { result ≤ length bytes.now }
{
    bytes.iter().filter(|b| **b == b'\n').count()
}

// Adds the token that a piece is, if it is one.
fn add(
    tokens: &mut Vec<Token>,
    kind: Option<Kind>,
    place: usize,
    len: usize,
    line: usize,
) -> Result<(), TokenError>
    requires place { place + len < 2 ^ 32 }
    requires line { line < 2 ^ 32 }
    ensures ok { OnOk result (tokens.new.items ≡ tokens.old.items ++ token_of kind place (place + len) line) }
    ensures err { IfErr result (λ e. e ≡ TokenError.NoMemory) }
{
    match kind {
        None => Ok(()),
        Some(kind) => {
            tokens.push(Token {
                kind,
                start: place as u32,
                end: (place + len) as u32,
                line: line as u32,
            })?;
            Ok(())
        }
    }
}

fn begins_token(b: u8) -> bool
    ensures { result ≡ begins_token b }
{
    b.is_ascii_alphabetic() || b.is_ascii_digit() || b == b'"' || single(b).is_some()
}

// The fault at a place where no piece stands.
fn fault_at(place: usize, rest: &[u8]) -> TokenError
    requires place { place < 2 ^ 32 }
    requires byte { 0 < length rest.now }
    ensures { result ≡ fault_of place (slice_index rest.now 0) }
{
    let place = place as u32;
    if begins_token(rest[0]) {
        TokenError::BadLiteral { place }
    } else {
        TokenError::BadByte { place }
    }
}

// The tokens of a text, or its first fault.
fn read(alloc: Global, text: &[u8]) -> Result<Vec<Token>, TokenError>
    requires { length text.now ≤ TEXT_LIMIT }
    ensures tokens { IfOk result (λ v. Tokens text.now v.items) }
    ensures refusal { IfErr result (Refuses text.now) }
{
    let mut tokens = Vec::new(alloc);
    let mut place = 0usize;
    let mut line = 1usize;
    let mut after_name = false;
    let mut rest = text;
    'pieces: while !rest.is_empty() {
        let found = match piece_at(after_name, rest) {
            Some(found) => found,
            None => return Err(fault_at(place, rest)),
        };
        let (bytes, behind) = rest.split_at(found.len);
        add(&mut tokens, found.kind, place, found.len, line)?;
        place += found.len;
        line += feeds(bytes);
        after_name = name_behind(found.kind, after_name);
        rest = behind;
    }
    Ok(tokens)
}

/// The tokens of a text, or its first fault. It asks for a text of at most [`TEXT_LIMIT`] bytes. Where
/// memory runs out it answers `NoMemory`.
pub fn tokens(alloc: Global, text: &[u8]) -> Result<Vec<Token>, TokenError>
    requires { length text.now ≤ TEXT_LIMIT }

    // What is answered is so.
    ensures tokens { IfOk result (λ v. Tokens text.now v.items) }
    ensures refusal { IfErr result (Refuses text.now) }

    // Each token is spelled as its kind says, and they stand one behind the other.
    ensures spelled { IfOk result (λ v. All (IsTokenOf text.now) v.items) }
    ensures in_order { IfOk result (λ v. StandInOrder 0 v.items) }

    // What is so is answered, unless memory runs out.
    ensures only_list { (list : List Token) → Tokens text.now list →
        IsOkAnd result (λ v. v.items ≡ list) ⊎ IsErrOf result TokenError.NoMemory }
    ensures only_fault { (fault : TokenError) → IsFault text.now fault →
        IsErrOf result fault ⊎ IsErrOf result TokenError.NoMemory }
{
    read(alloc, text)
}

/// A text is one list of tokens, or has one first fault, and not both.
pub fn one_reading()
    ensures some { (text : List ℕ) →
        ((list : List Token) × Tokens text list) ⊎ ((fault : TokenError) × IsFault text fault) }
    ensures one_list { (text : List ℕ) (list others : List Token) →
        Tokens text list → Tokens text others → list ≡ others }
    ensures list_or_fault { (text : List ℕ) (list : List Token) (fault : TokenError) →
        Tokens text list → IsFault text fault → ⊥ }
    ensures one_fault { (text : List ℕ) (fault other : TokenError) →
        IsFault text fault → IsFault text other → fault ≡ other }

    // A bad byte is one with which no token begins, in any text.
    ensures first_bytes { (byte : ℕ) → IsTrue (begins_token byte) ↔ BeginsToken byte }
{}
