//! Classes of bytes.

ghost use Rattle.std.specs.Prelude.{◌≡◌};
ghost use Rattle.vhdl_tokens.specs.Bytes.{is_word_byte, is_graphic, is_separator, belongs, base_of};

/// What the bytes of a run with single underlines in it are.
#[derive(Clone, Copy, Debug, PartialEq, Eq)]
pub enum Class {
    /// The letters and digits of an identifier.
    Name,
    /// The digits of an integer.
    Decimal,
    /// The digits of a bit string of base 2.
    Binary,
    /// The digits of a bit string of base 8.
    Octal,
    /// The digits of a bit string of base 16.
    Hexadecimal,
}

/// Whether a byte is a letter, a digit or an underline.
pub fn is_word_byte(b: u8) -> bool
    ensures { result ≡ is_word_byte b }
{
    b.is_ascii_alphanumeric() || b == b'_'
}

/// Whether a byte may stand in a character or string literal.
pub fn is_graphic(b: u8) -> bool
    ensures { result ≡ is_graphic b }
{
    32 <= b && b <= 126
}

/// Whether a byte separates tokens.
pub fn is_separator(b: u8) -> bool
    ensures { result ≡ is_separator b }
{
    b == b' ' || b == b'\t' || b == b'\n' || b == b'\r'
}

/// Whether a byte is of a class.
pub fn belongs(class: Class, b: u8) -> bool
    ensures { result ≡ belongs class b }
{
    match class {
        Class::Name => b.is_ascii_alphanumeric(),
        Class::Decimal => b.is_ascii_digit(),
        Class::Binary => b == b'0' || b == b'1',
        Class::Octal => b'0' <= b && b <= b'7',
        Class::Hexadecimal => b.is_ascii_hexdigit(),
    }
}

/// The digits that may follow a base specifier.
pub fn base_of(b: u8) -> Option<Class>
    ensures { result ≡ base_of b }
{
    match b {
        b'b' | b'B' => Some(Class::Binary),
        b'o' | b'O' => Some(Class::Octal),
        b'x' | b'X' => Some(Class::Hexadecimal),
        _ => None,
    }
}
