//! What is said of the cases of a file.

use crate::out::Out;
use crate::trouble::Trouble;
use std::alloc::{AllocError, Global};

/// A case by its file, the line that it begins with, and that line.
#[derive(Clone, Copy)]
pub struct Place<'a> {
    pub file: &'a str,
    pub line: usize,
    pub text: &'a str,
}

/// The differences, and how many cases were compared.
#[derive(Drop)]
pub struct Report {
    text: Out,
    cases: usize,
    differences: usize,
}

/// Adds bytes as they are written in a case.
pub fn push_escaped(out: &mut Out, bytes: &[u8]) {
    for byte in bytes {
        match *byte {
            b'\n' => out.put("\\n"),
            b'\\' => out.put("\\\\"),
            b' '..=b'~' => out.bytes(&[*byte]),
            other => out.byte_digits(other),
        }
    }
}

impl Report {
    pub fn new(alloc: Global) -> Report {
        Report {
            text: Out::new(alloc),
            cases: 0,
            differences: 0,
        }
    }

    /// Whether all cases came as they are wanted.
    pub fn is_well(&self) -> bool {
        self.differences == 0
    }

    fn begin(&mut self, place: Place<'_>) {
        self.differences = self.differences.saturating_add(1);
        self.text.put(place.file);
        self.text.put(":");
        self.text.show(place.line);
        self.text.put(": ");
        self.text.put(place.text);
        self.text.put("\n");
    }

    fn line(&mut self, word: &str, part: &str, bytes: &[u8]) {
        self.text.put(word);
        self.text.put(part);
        self.text.put(": ");
        push_escaped(&mut self.text, bytes);
        self.text.put("\n");
    }

    /// Compares a part of what came with what is wanted, and says where they differ.
    pub fn compare(&mut self, place: Place<'_>, part: &str, wanted: &[u8], came: &[u8]) {
        if wanted != came {
            self.begin(place);
            self.line("  wanted ", part, wanted);
            self.line("  came ", part, came);
        }
    }

    /// Counts a case all of which was compared.
    pub fn count(&mut self) {
        self.cases = self.cases.saturating_add(1);
    }

    /// Compares a case of one answer, and counts it.
    pub fn case(&mut self, place: Place<'_>, wanted: &str, came: &str) {
        self.compare(place, "answer", wanted.as_bytes(), came.as_bytes());
        self.count();
    }

    fn malformed(&mut self, place: Place<'_>) {
        self.begin(place);
        self.text.put("  malformed\n");
    }

    /// Says how many cases there are, and gives all that is said.
    pub fn finish(self, group: &str) -> Result<String, AllocError> {
        let Report {
            mut text,
            cases,
            ..
        } = self;
        text.put(group);
        text.put(": ");
        text.show(cases);
        text.put(" cases\n");
        text.finish()
    }

    /// Goes on where a case was malformed.
    pub fn settle(&mut self, place: Place<'_>, tried: Result<(), Trouble>) -> Result<(), Trouble> {
        match tried {
            Ok(()) => Ok(()),
            Err(Trouble::Malformed) => {
                self.malformed(place);
                Ok(())
            }
            Err(Trouble::NoMemory) => Err(Trouble::NoMemory),
        }
    }
}
