//! Texts as a case writes them, with escapes and a mark.

use crate::trouble::Trouble;
use std::alloc::Global;

/// A text with its escapes replaced, and the place of its mark `^`.
#[derive(Drop)]
pub struct Text {
    pub bytes: Vec<u8>,
    pub mark: Option<usize>,
}

/// How far an escape has been read.
#[derive(Clone, Copy, Debug, PartialEq, Eq)]
enum Escape {
    Out,
    Begun,
    Digit,
    LastDigit(u8),
    Count(usize),
}

#[derive(Drop)]
struct Reading {
    text: Text,
    escape: Escape,
    /// How often the part that is being read stands in the text, and where it begins.
    repeated: Option<(usize, usize)>,
}

/// The value of a hexadecimal digit.
fn digit(byte: u8) -> Option<u8> {
    match byte {
        b'0'..=b'9' => Some(byte - b'0'),
        b'a'..=b'f' => Some(byte - b'a' + 10),
        _ => None,
    }
}

fn count_with(count: usize, byte: u8) -> Option<usize> {
    match byte {
        b'0'..=b'9' => count.checked_mul(10)?.checked_add(usize::from(byte - b'0')),
        _ => None,
    }
}

impl Reading {
    fn push(&mut self, byte: u8) -> Result<(), Trouble> {
        self.text.bytes.push(byte)?;
        self.escape = Escape::Out;
        Ok(())
    }

    fn put_mark(&mut self) -> Result<(), Trouble> {
        if self.text.mark.is_some() || self.repeated.is_some() {
            return Err(Trouble::Malformed);
        }
        self.text.mark = Some(self.text.bytes.len());
        Ok(())
    }

    fn plain(&mut self, byte: u8) -> Result<(), Trouble> {
        match byte {
            b'\\' => self.escape = Escape::Begun,
            b'^' => self.put_mark()?,
            _ => self.push(byte)?,
        }
        Ok(())
    }

    fn begun(&mut self, byte: u8) -> Result<(), Trouble> {
        match byte {
            b'n' => self.push(b'\n'),
            b'r' => self.push(b'\r'),
            b't' => self.push(b'\t'),
            b's' => self.push(b' '),
            b'\\' | b'^' | b'|' => self.push(byte),
            // nothing stands for no text, and at the end of a line for no line feed
            b'e' | b'\n' => {
                self.escape = Escape::Out;
                Ok(())
            }
            b'x' => {
                self.escape = Escape::Digit;
                Ok(())
            }
            b'{' => {
                self.escape = Escape::Count(0);
                Ok(())
            }
            b'}' => self.repeat(),
            _ => Err(Trouble::Malformed),
        }
    }

    fn counted(&mut self, count: usize, byte: u8) -> Result<(), Trouble> {
        if byte == b':' {
            if count == 0 || self.repeated.is_some() {
                return Err(Trouble::Malformed);
            }
            self.repeated = Some((count, self.text.bytes.len()));
            self.escape = Escape::Out;
            return Ok(());
        }
        let count = count_with(count, byte).ok_or(Trouble::Malformed)?;
        self.escape = Escape::Count(count);
        Ok(())
    }

    /// Ends a repeated part.
    fn repeat(&mut self) -> Result<(), Trouble> {
        let (count, from) = self.repeated.ok_or(Trouble::Malformed)?;
        let part = self
            .text
            .bytes
            .as_slice()
            .get(from..)
            .ok_or(Trouble::Malformed)?;
        let part = Vec::from_slice(*self.text.bytes.allocator(), part)?;
        for _ in 1..count {
            self.text.bytes.extend_from_slice(part.as_slice())?;
        }
        self.repeated = None;
        self.escape = Escape::Out;
        Ok(())
    }

    fn take(&mut self, byte: u8) -> Result<(), Trouble> {
        match self.escape {
            Escape::Out => self.plain(byte),
            Escape::Begun => self.begun(byte),
            Escape::Digit => {
                let high = digit(byte).ok_or(Trouble::Malformed)?;
                self.escape = Escape::LastDigit(high);
                Ok(())
            }
            Escape::LastDigit(high) => {
                let low = digit(byte).ok_or(Trouble::Malformed)?;
                self.push(high.wrapping_mul(16).wrapping_add(low))
            }
            Escape::Count(count) => self.counted(count, byte),
        }
    }
}

/// The text that is written so. A second mark, and an escape that isn't one, are malformed.
pub fn text_of(alloc: Global, written: &str) -> Result<Text, Trouble> {
    let mut reading = Reading {
        text: Text {
            bytes: Vec::new(alloc),
            mark: None,
        },
        escape: Escape::Out,
        repeated: None,
    };
    for byte in written.as_bytes() {
        reading.take(*byte)?;
    }
    if reading.escape != Escape::Out || reading.repeated.is_some() {
        return Err(Trouble::Malformed);
    }
    Ok(reading.text)
}

/// The same where no mark may stand.
pub fn bytes_of(alloc: Global, written: &str) -> Result<Vec<u8>, Trouble> {
    let Text { bytes, mark } = text_of(alloc, written)?;
    match mark {
        None => Ok(bytes),
        Some(_) => Err(Trouble::Malformed),
    }
}

/// A decimal number.
pub fn number_of(written: &str) -> Result<usize, Trouble> {
    let mut number = None;
    for byte in written.as_bytes() {
        let next = count_with(number.unwrap_or(0), *byte).ok_or(Trouble::Malformed)?;
        number = Some(next);
    }
    number.ok_or(Trouble::Malformed)
}
