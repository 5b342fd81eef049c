//! How deep brackets and statements nest.

ghost use Rattle.std.specs.Prelude.{◌≡◌, ◌+◌, ◌<◌, ◌^◌, nat_lt, length, IfSome};
ghost use Rattle.vhdl_tree.specs.Faults as faults;
ghost use Rattle.vhdl_reader.specs.Depth as spec;

use vhdl_tokens::{Delimiter, Kind, Reserved, Token};

/// How deep brackets and statements may nest.
const MOST_DEPTH: usize = 64;

fn is_end(kind: Kind) -> bool
    ensures { result ≡ faults.is_end kind }
{
    match kind {
        Kind::Word(Reserved::End) => true,
        _ => false,
    }
}

fn opens(after_end: bool, kind: Kind) -> bool
    ensures { result ≡ faults.opens after_end kind }
{
    match kind {
        Kind::Delimiter(Delimiter::LeftParen) => true,
        Kind::Word(Reserved::If) => !after_end,
        Kind::Word(Reserved::Case) => !after_end,
        Kind::Word(Reserved::Loop) => !after_end,
        _ => false,
    }
}

fn closes(after_end: bool, kind: Kind) -> bool
    ensures { result ≡ faults.closes after_end kind }
{
    match kind {
        Kind::Delimiter(Delimiter::RightParen) => true,
        Kind::Word(Reserved::If) => after_end,
        Kind::Word(Reserved::Case) => after_end,
        Kind::Word(Reserved::Loop) => after_end,
        _ => false,
    }
}

fn one_more(count: usize, more: bool) -> usize
    requires { count + 1 < 2 ^ 64 }
    ensures { result ≡ count + faults.one_if more }
{
    if more { count + 1 } else { count }
}

fn is_too_deep(opened: usize, closed: usize) -> bool
    ensures { result ≡ nat_lt (closed + faults.most_depth) opened }
{
    closed < opened && MOST_DEPTH < opened - closed
}

/// The first token that is too deep, if there is one.
pub fn first_deep(tokens: &[Token]) -> Option<usize>
    ensures found { result ≡ spec.first_deep tokens.now }
    ensures within { IfSome result (λ k. k < length tokens.now) }
{
    let mut opened = 0;
    let mut closed = 0;
    let mut after_end = false;
    let mut place = 0;
    for token in tokens {
        opened = one_more(opened, opens(after_end, token.kind));
        closed = one_more(closed, closes(after_end, token.kind));
        if is_too_deep(opened, closed) {
            return Some(place);
        }
        after_end = is_end(token.kind);
        place += 1;
    }
    None
}
