//! What stands at the front of a text.

ghost use Rattle.std.specs.Prelude.{◌≡◌, ◌+◌, ◌≤◌, ◌<◌, ◌^◌, ◌==◌, length, take, drop, Some, None, if◌then◌else◌};
ghost use Rattle.std.specs.List.{prefix_len};
ghost use Rattle.vhdl_tokens.specs.Bytes.{is_word_byte};
ghost use Rattle.vhdl_tokens.specs.Reserved.{reserved_word};
ghost use Rattle.vhdl_tokens.specs.Delimiters.{single, double};
ghost use Rattle.vhdl_tokens.specs.Spelling.{begins, is_spaced, is_identifier, with_digit, number, small, is_integer, are_digits, is_on_line};
ghost use Rattle.vhdl_tokens.specs.Text.{bits_base};
ghost use Rattle.vhdl_tokens.specs.Scan.{run_len, kind_of_word, single_at, double_at, text_to, block_to, text_step, name_at, integer_at, bits_at, word_at, text_end, block_end, char_at, tick_at, mark_at, piece_at};

use crate::bytes::{Class, base_of, belongs, is_graphic, is_separator, is_word_byte};
use crate::reserved::reserved_word;
use crate::token::{Delimiter, Kind, Reserved};

/// A piece at the front of a text: a token, or a separator or comment, which has no kind.
#[derive(Clone, Copy, Debug, PartialEq, Eq)]
pub struct Found {
    /// What token it is, if it is one.
    pub kind: Option<Kind>,
    /// How many bytes it has.
    pub len: usize,
}

// A separator or comment.
fn blank(len: usize) -> Option<Found>
    ensures { result ≡ Some (record { kind = None; len = len }) }
{
    Some(Found { kind: None, len })
}

// A token.
fn token(kind: Kind, len: usize) -> Option<Found>
    ensures { result ≡ Some (record { kind = Some kind; len = len }) }
{
    Some(Found {
        kind: Some(kind),
        len,
    })
}

/// How far letters, digits and underlines go.
pub fn run_len(text: &[u8]) -> usize
    ensures len { result ≡ run_len text.now }
    ensures within { result ≤ length text.now }
{
    text.iter().take_while(|b| is_word_byte(**b)).count()
}

// How far the line goes.
fn line_len(text: &[u8]) -> usize
    ensures len { result ≡ prefix_len is_on_line text.now }
    ensures within { result ≤ length text.now }
{
    text.iter().take_while(|b| **b != b'\n').count()
}

/// Whether bytes are of a class, at least one, with single underlines between them.
pub fn is_spaced(class: Class, bytes: &[u8]) -> bool
    ensures { result ≡ is_spaced class bytes.now }
{
    let mut rest = bytes;
    'bytes: while let [a, behind @ ..] = rest {
        if !belongs(class, *a) {
            return false;
        }
        rest = match behind {
            [] => return true,
            [b'_', more @ ..] => more,
            _ => behind,
        };
    }
    false
}

/// Whether bytes are a letter, and then letters and digits with single underlines between them.
pub fn is_identifier(name: &[u8]) -> bool
    ensures { result ≡ is_identifier name.now }
{
    match name {
        [] => false,
        [a, ..] => a.is_ascii_alphabetic() && is_spaced(Class::Name, name),
    }
}

/// Whether bytes are no digits, or digits with single underlines between them.
pub fn are_digits(base: Class, bytes: &[u8]) -> bool
    ensures { result ≡ are_digits base bytes.now }
{
    bytes.is_empty() || is_spaced(base, bytes)
}

// A number and one more digit, where that is at most 2^128 - 1.
fn with_digit(n: u128, d: u8) -> Option<u128>
    ensures { result ≡ small (with_digit n d) }
{
    if d == b'_' {
        return Some(n);
    }
    n.checked_mul(10)?
        .checked_add(u128::from(d.saturating_sub(b'0')))
}

/// The number that digits say, where it is at most 2^128 - 1.
pub fn number(digits: &[u8]) -> Option<u128>
    ensures { result ≡ small (number digits.now) }
{
    let mut n = 0u128;
    for d in digits {
        match with_digit(n, *d) {
            None => return None,
            Some(more) => n = more,
        }
    }
    Some(n)
}

/// The number of an integer, where the bytes are one.
pub fn integer(digits: &[u8]) -> Option<u128>
    ensures { result ≡ (if is_integer digits.now then Some (number digits.now) else None) }
{
    if is_spaced(Class::Decimal, digits) {
        number(digits)
    } else {
        None
    }
}

// The kind of a run that begins with a letter.
fn word_kind(word: &[u8]) -> Kind
    ensures { result ≡ kind_of_word (reserved_word word.now) }
{
    match reserved_word(word) {
        None => Kind::Identifier,
        Some(word) => Kind::Word(word),
    }
}

#[tactic(auto, unfolding(crate::specs::Scan::name_at))]
fn name_at(text: &[u8]) -> Option<Found>
    ensures { result ≡ name_at text.now }
{
    let len = run_len(text);
    let (word, _) = text.split_at(len);
    if is_spaced(Class::Name, word) {
        token(word_kind(word), len)
    } else {
        None
    }
}

#[tactic(auto, unfolding(crate::specs::Scan::integer_at))]
fn integer_at(text: &[u8]) -> Option<Found>
    ensures { result ≡ integer_at text.now }
{
    let len = run_len(text);
    let (digits, _) = text.split_at(len);
    match integer(digits) {
        None => None,
        Some(_) => token(Kind::Int, len),
    }
}

/// The base of the bit string that a text begins with: a base specifier, and then a quotation mark.
pub fn bits_base(text: &[u8]) -> Option<Class>
    ensures { result ≡ bits_base text.now }
{
    match text {
        [letter, b'"', ..] => base_of(*letter),
        _ => None,
    }
}

fn is_quoted(behind: &[u8]) -> bool
    ensures { result ≡ begins (λ b. b == 34) behind.now }
{
    match behind {
        [b'"', ..] => true,
        _ => false,
    }
}

#[tactic(auto, unfolding(crate::specs::Scan::bits_at))]
fn bits_at(base: Class, text: &[u8]) -> Option<Found>
    requires { length text.now < 2 ^ 32 }
    ensures { result ≡ bits_at base text.now }
{
    match text {
        [_, _, more @ ..] => {
            let len = run_len(more);
            let (digits, behind) = more.split_at(len);
            if are_digits(base, digits) && is_quoted(behind) {
                token(Kind::Bits, len + 3)
            } else {
                None
            }
        }
        _ => None,
    }
}

#[tactic(auto, unfolding(crate::specs::Scan::word_at))]
fn word_at(text: &[u8]) -> Option<Found>
    requires { length text.now < 2 ^ 32 }
    ensures { result ≡ word_at text.now }
{
    match bits_base(text) {
        None => name_at(text),
        Some(base) => bits_at(base, text),
    }
}

/// How a string literal goes on.
#[derive(Clone, Copy, Debug, PartialEq, Eq)]
pub enum TextStep {
    /// A byte of its value is spelled by so many bytes.
    Takes(usize),
    /// Its last quotation mark.
    Ends,
    /// Neither.
    Breaks,
}

/// How a string literal goes on with these bytes.
pub fn text_step(rest: &[u8]) -> TextStep
    ensures { result ≡ text_step rest.now }
{
    match rest {
        [] => TextStep::Breaks,
        [b'"', b'"', ..] => TextStep::Takes(2),
        [b'"', ..] => TextStep::Ends,
        [a, ..] => {
            if is_graphic(*a) {
                TextStep::Takes(1)
            } else {
                TextStep::Breaks
            }
        }
    }
}

// How many bytes a string literal has that goes on with these behind its first quotation mark.
fn text_end(bytes: &[u8]) -> Option<usize>
    requires { length bytes.now < 2 ^ 32 }
    ensures { result ≡ text_end 1 bytes.now }
{
    let mut len = 1usize;
    let mut rest = bytes;
    'bytes: loop {
        match text_step(rest) {
            TextStep::Takes(n) => {
                let (_, behind) = rest.split_at(n);
                rest = behind;
                len += n;
            }
            TextStep::Ends => return Some(len + 1),
            TextStep::Breaks => return None,
        }
    }
}

// How many bytes a comment has that goes on with these behind its `/*`.
#[tactic(auto, unfolding(crate::specs::Scan::block_end))]
fn block_end(bytes: &[u8]) -> Option<usize>
    requires { length bytes.now < 2 ^ 32 }
    ensures { result ≡ block_end 2 bytes.now }
{
    let mut len = 2usize;
    let mut rest = bytes;
    'bytes: while let [a, behind @ ..] = rest {
        match behind {
            [b'/', ..] if *a == b'*' => return Some(len + 2),
            _ => {}
        }
        len += 1;
        rest = behind;
    }
    None
}

#[tactic(auto, unfolding(crate::specs::Scan::char_at))]
fn char_at(text: &[u8]) -> Option<Found>
    ensures { result ≡ char_at text.now }
{
    match text {
        [_, b, b'\'', ..] if is_graphic(*b) => token(Kind::Char, 3),
        _ => None,
    }
}

fn tick_at(after_name: bool, text: &[u8]) -> Option<Found>
    ensures { result ≡ tick_at after_name text.now }
{
    if after_name {
        token(Kind::Delimiter(Delimiter::Tick), 1)
    } else {
        char_at(text)
    }
}

/// The delimiter of one byte.
pub fn single(b: u8) -> Option<Delimiter>
    ensures { result ≡ single b }
{
    match b {
        b'(' => Some(Delimiter::LeftParen),
        b')' => Some(Delimiter::RightParen),
        b',' => Some(Delimiter::Comma),
        b';' => Some(Delimiter::Semicolon),
        b':' => Some(Delimiter::Colon),
        b'.' => Some(Delimiter::Dot),
        b'&' => Some(Delimiter::Ampersand),
        b'\'' => Some(Delimiter::Tick),
        b'|' => Some(Delimiter::Bar),
        b'+' => Some(Delimiter::Plus),
        b'-' => Some(Delimiter::Minus),
        b'*' => Some(Delimiter::Star),
        b'/' => Some(Delimiter::Slash),
        b'<' => Some(Delimiter::Less),
        b'>' => Some(Delimiter::Greater),
        b'=' => Some(Delimiter::Equal),
        _ => None,
    }
}

// The delimiter of two bytes.
fn double(a: u8, b: u8) -> Option<Delimiter>
    ensures { result ≡ double a b }
{
    match (a, b) {
        (b'*', b'*') => Some(Delimiter::DoubleStar),
        (b'=', b'>') => Some(Delimiter::Arrow),
        (b':', b'=') => Some(Delimiter::Assign),
        (b'<', b'=') => Some(Delimiter::LessEqual),
        (b'>', b'=') => Some(Delimiter::GreaterEqual),
        (b'/', b'=') => Some(Delimiter::NotEqual),
        _ => None,
    }
}

fn single_at(a: u8) -> Option<Found>
    ensures { result ≡ single_at (single a) }
{
    match single(a) {
        None => None,
        Some(delimiter) => token(Kind::Delimiter(delimiter), 1),
    }
}

fn double_at(a: u8, b: u8) -> Option<Found>
    ensures { result ≡ double_at (double a b) a }
{
    match double(a, b) {
        None => single_at(a),
        Some(delimiter) => token(Kind::Delimiter(delimiter), 2),
    }
}

fn block_at(body: &[u8]) -> Option<Found>
    requires { length body.now < 2 ^ 32 }
    ensures { result ≡ block_to (block_end 2 body.now) }
{
    match block_end(body) {
        None => None,
        Some(len) => blank(len),
    }
}

fn text_at(behind: &[u8]) -> Option<Found>
    requires { length behind.now < 2 ^ 32 }
    ensures { result ≡ text_to (text_end 1 behind.now) }
{
    match text_end(behind) {
        None => None,
        Some(len) => token(Kind::Text, len),
    }
}

#[tactic(auto, unfolding(crate::specs::Scan::mark_at))]
fn mark_at(text: &[u8]) -> Option<Found>
    requires { length text.now < 2 ^ 32 }
    ensures { result ≡ mark_at text.now }
{
    match text {
        [] => None,
        [a] => single_at(*a),
        [a, b, body @ ..] => {
            if *a == b'-' && *b == b'-' {
                blank(2 + line_len(body))
            } else if *a == b'/' && *b == b'*' {
                block_at(body)
            } else {
                double_at(*a, *b)
            }
        }
    }
}

/// What stands at the front of a text, if anything does. `after_name` says that the token before it is an
/// identifier, `)` or `all`, so that an apostrophe is a delimiter.
#[tactic(auto, unfolding(crate::specs::Scan::piece_at))]
pub fn piece_at(after_name: bool, text: &[u8]) -> Option<Found>
    requires { length text.now < 2 ^ 32 }
    ensures { result ≡ piece_at after_name text.now }
{
    match text {
        [] => None,
        [b, behind @ ..] => {
            if b.is_ascii_alphabetic() {
                word_at(text)
            } else if b.is_ascii_digit() {
                integer_at(text)
            } else if is_separator(*b) {
                blank(1)
            } else if *b == b'"' {
                text_at(behind)
            } else if *b == b'\'' {
                tick_at(after_name, text)
            } else {
                mark_at(text)
            }
        }
    }
}
