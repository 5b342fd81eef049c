//! Cases of several lines: `case NAME`, and then parts, each with a word and the text behind it.

use crate::calls::{Call, Came, make};
use crate::files::is_said;
use crate::kinds::Kind;
use crate::report::{Place, Report};
use crate::texts::{bytes_of, number_of};
use crate::trouble::Trouble;
use crate::units::{contents_of, units_of_text};
use sim_command::Status;
use sim_host::{Name, name};
use std::alloc::{AllocError, Global};

/// A part of a case: its word, what stands behind the word, and the lines of its text.
#[derive(Drop)]
struct Part<'a> {
    word: &'a str,
    rest: &'a str,
    text: String,
}

/// A case with its parts.
#[derive(Drop)]
struct Block<'a> {
    place: Place<'a>,
    parts: Vec<Part<'a>>,
}

impl<'a> Block<'a> {
    fn new(alloc: Global, place: Place<'a>) -> Block<'a> {
        Block {
            place,
            parts: Vec::new(alloc),
        }
    }

    /// Adds a line of a text to the last part.
    fn add_text(&mut self, line: &str) -> Result<(), Trouble> {
        let part = self.parts.last_mut().ok_or(Trouble::Malformed)?;
        part.text.push_str(line)?;
        part.text.push_str("\n")?;
        Ok(())
    }

    fn add_part(&mut self, alloc: Global, line: &'a str) -> Result<(), Trouble> {
        let (word, rest) = line.split_once(" ").unwrap_or((line, ""));
        if self.part(word).is_some() {
            return Err(Trouble::Malformed);
        }
        self.parts.push(Part {
            word,
            rest,
            text: String::new(alloc),
        })?;
        Ok(())
    }

    fn add_line(&mut self, alloc: Global, line: &'a str) -> Result<(), Trouble> {
        if line == "|" {
            return self.add_text("");
        }
        match line.strip_prefix("| ") {
            Some(text) => self.add_text(text),
            None => self.add_part(alloc, line),
        }
    }

    fn part(&self, word: &str) -> Option<&Part<'a>> {
        self.parts.as_slice().iter().find(|part| part.word == word)
    }

    /// The text of a part. It is empty where there is no such part.
    fn text(&self, alloc: Global, word: &str) -> Result<Vec<u8>, Trouble> {
        match self.part(word) {
            Some(part) => bytes_of(alloc, part.text.as_str()),
            None => Ok(Vec::new(alloc)),
        }
    }

    /// What stands behind a word, if there is such a part.
    fn rest(&self, word: &str) -> Option<&'a str> {
        match self.part(word) {
            Some(part) => Some(part.rest),
            None => None,
        }
    }

    /// Whether each part has one of these words.
    fn has_only(&self, words: &[&'static str]) -> bool {
        for part in &self.parts {
            if !is_one_of(words, part.word) {
                return false;
            }
        }
        true
    }
}

fn is_one_of(words: &[&'static str], word: &str) -> bool {
    for known in words {
        if *known == word {
            return true;
        }
    }
    false
}

fn words_of(alloc: Global, written: &str) -> Result<Vec<Name>, Trouble> {
    let mut words = Vec::new(alloc);
    for word in written.split_whitespace() {
        let bytes = bytes_of(alloc, word)?;
        let word = std::str::from_utf8(bytes.as_slice())
            .ok()
            .ok_or(Trouble::Malformed)?;
        words.push(name(alloc, word)?)?;
    }
    Ok(words)
}

/// The number of a status.
fn status_bytes(alloc: Global, status: Status) -> Result<String, AllocError> {
    let status = status as u8;
    format!(in alloc; "{status}")
}

/// What is wanted of a call.
#[derive(Clone, Copy)]
struct Wanted<'a> {
    status: &'a str,
    out: &'a [u8],
    err: &'a [u8],
    /// Whether Out need be no more than a front of `out`.
    front: bool,
}

/// The part of Out that is wanted: where a front will do, as much as came, if it is no more than there is.
fn out_wanted<'a>(wanted: &Wanted<'a>, came: &[u8]) -> &'a [u8] {
    if wanted.front {
        wanted.out.get(..came.len()).unwrap_or(wanted.out)
    } else {
        wanted.out
    }
}

fn asked_wanted(status: &str) -> &'static str {
    if status == "2" { "0" } else { "1" }
}

fn compare_call(
    alloc: Global,
    place: Place<'_>,
    wanted: &Wanted<'_>,
    came: &Came,
    report: &mut Report,
) -> Result<(), Trouble> {
    let status = status_bytes(alloc, came.status)?;
    report.compare(place, "status", wanted.status.as_bytes(), status.as_bytes());
    report.compare(place, "Out", out_wanted(wanted, came.out()), came.out());
    report.compare(place, "Err", wanted.err, came.err());
    let asked = came.times_asked();
    let asked = format!(in alloc; "{asked}")?;
    let asked_wanted = asked_wanted(wanted.status);
    report.compare(
        place,
        "number of files asked for",
        asked_wanted.as_bytes(),
        asked.as_bytes(),
    );
    if came.has_saved() {
        report.compare(place, "saved file", b"none", b"one");
    }
    report.count();
    Ok(())
}

const CALL_WORDS: [&str; 8] = [
    "words", "file", "out", "front", "err", "status", "piece", "fails",
];

fn out_of<'a>(alloc: Global, block: &Block<'a>) -> Result<(Vec<u8>, bool), Trouble> {
    if block.part("front").is_some() {
        return Ok((block.text(alloc, "front")?, true));
    }
    Ok((block.text(alloc, "out")?, false))
}

/// Words, a file, and what is written.
fn try_call(alloc: Global, block: &Block<'_>, report: &mut Report) -> Result<(), Trouble> {
    if !block.has_only(&CALL_WORDS) {
        return Err(Trouble::Malformed);
    }
    let words = block.rest("words").ok_or(Trouble::Malformed)?;
    let words = words_of(alloc, words)?;
    let text = block.text(alloc, "file")?;
    let (out, front) = out_of(alloc, block)?;
    let err = block.text(alloc, "err")?;
    let status = block.rest("status").unwrap_or("0");
    let wanted = Wanted {
        status,
        out: out.as_slice(),
        err: err.as_slice(),
        front,
    };
    let piece = block.rest("piece").unwrap_or("4096");
    let piece = number_of(piece)?;
    let file = block.rest("file").unwrap_or("W");
    let fails = block.rest("fails").unwrap_or("0");
    for number in fails.split_whitespace() {
        let call = Call {
            words: words.as_slice(),
            file,
            text: text.as_slice(),
            piece,
            fails: number_of(number)? as u64,
        };
        let came = make(alloc, call)?;
        compare_call(alloc, block.place, &wanted, &came, report)?;
    }
    Ok(())
}

/// A text, and what is shown of it.
fn try_shown(
    alloc: Global,
    kind: Kind,
    block: &Block<'_>,
    report: &mut Report,
) -> Result<(), Trouble> {
    if !block.has_only(&["text", "shows"]) || block.parts.len() != 2 {
        return Err(Trouble::Malformed);
    }
    let text = block.text(alloc, "text")?;
    let wanted = block.text(alloc, "shows")?;
    let came = match kind {
        Kind::Units => units_of_text(alloc, text.as_slice())?,
        _ => contents_of(alloc, text.as_slice())?,
    };
    report.compare(block.place, "answer", wanted.as_slice(), came.as_bytes());
    report.count();
    Ok(())
}

fn try_block(
    alloc: Global,
    kind: Kind,
    block: &Block<'_>,
    report: &mut Report,
) -> Result<(), Trouble> {
    match kind {
        Kind::Calls => try_call(alloc, block, report),
        _ => try_shown(alloc, kind, block, report),
    }
}

/// Tries a case, if there is one, and goes on where it is malformed.
fn end_block(
    alloc: Global,
    kind: Kind,
    block: &Option<Block<'_>>,
    report: &mut Report,
) -> Result<(), Trouble> {
    match block {
        Some(block) => {
            let tried = try_block(alloc, kind, block, report);
            report.settle(block.place, tried)
        }
        None => Ok(()),
    }
}

fn add_line<'a>(
    alloc: Global,
    block: &mut Option<Block<'a>>,
    line: &'a str,
) -> Result<(), Trouble> {
    match block {
        Some(block) => block.add_line(alloc, line),
        None => Err(Trouble::Malformed),
    }
}

/// Tries the cases of a file, each of which begins with a line `case NAME`.
pub fn try_blocks(
    alloc: Global,
    kind: Kind,
    file: &str,
    text: &str,
    report: &mut Report,
) -> Result<(), Trouble> {
    let mut block = None;
    let mut number = 0usize;
    for line in text.lines() {
        number = number.saturating_add(1);
        let place = Place {
            file,
            line: number,
            text: line,
        };
        if line.starts_with("case ") {
            end_block(alloc, kind, &block, report)?;
            block = Some(Block::new(alloc, place));
        } else if is_said(line) {
            let added = add_line(alloc, &mut block, line);
            report.settle(place, added)?;
        }
    }
    end_block(alloc, kind, &block, report)
}
