//! The name that a token spells.

ghost use Rattle.std.specs.Prelude.{◌≡◌, ◌++◌, ◌∷◌, [], IfOk, OnOk, filter, string_bytes};
ghost use Rattle.vhdl_names_scope.specs.Names.{word_in, folded, is_ascii};

use std::alloc::{AllocError, Global};
use vhdl_tokens::{Kind, Token, span};

// A byte of a token as it stands in a name.
fn folded(kind: Kind, byte: u8) -> u8
    ensures { result ≡ folded kind byte }
{
    match kind {
        Kind::Char => byte,
        _ => byte.to_ascii_lowercase(),
    }
}

fn push_ascii(name: &mut String, byte: u8) -> Result<(), AllocError>
    ensures { OnOk result (string_bytes name.new ≡ string_bytes name.old ++ filter is_ascii (byte ∷ [])) }
{
    if byte < 128 {
        name.push(char::from(byte))?;
    }
    Ok(())
}

/// The name that a token of a text spells: an identifier or reserved word in lower case (15.4.2), a
/// character literal as it is spelled, with its apostrophes (15.6). No token of a text has a byte above
/// 127; such bytes are left out.
pub fn word(alloc: Global, text: &[u8], token: &Token) -> Result<String, AllocError>
    ensures { IfOk result (λ name. string_bytes name ≡ word_in text.now token.now) }
{
    let mut name = String::new(alloc);
    for byte in span(text, token) {
        push_ascii(&mut name, folded(token.kind, *byte))?;
    }
    Ok(name)
}
