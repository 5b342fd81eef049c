//! Texts with what a run of one cycle of them is answered.

use crate::calls::{Call, Came, FILE, make, run_words};
use crate::out::Out;
use crate::report::{Place, Report, push_escaped};
use crate::texts::text_of;
use crate::trouble::Trouble;
use sim_command::Status;
use sim_host::Name;
use std::alloc::{AllocError, Global};

/// Why a text is refused, as the line on standard error says it.
fn refusal(came: &Came) -> Option<&str> {
    if came.status != Status::Refused || !came.out().is_empty() {
        return None;
    }
    let line = std::str::from_utf8(came.err()).ok()?;
    line.strip_prefix("vhpisim: design: ")?.strip_suffix("\n")
}

/// Whether the run came to its end.
fn is_done(came: &Came) -> bool {
    came.status == Status::Done && came.err().is_empty() && !came.out().is_empty()
}

/// An answer that is none of the usual ones, in full.
fn push_other(out: &mut Out, came: &Came) {
    out.put("status ");
    out.show(came.status as u8);
    out.put(", Out ");
    push_escaped(out, came.out());
    out.put(", Err ");
    push_escaped(out, came.err());
}

fn shown(alloc: Global, came: &Came) -> Result<String, AllocError> {
    let mut out = Out::new(alloc);
    match refusal(came) {
        Some(words) => out.put(words),
        None if is_done(came) => out.put("done"),
        None => push_other(&mut out, came),
    }
    out.finish()
}

/// What a run of one cycle of a text is answered: `done`, or why it is refused.
pub fn answer(alloc: Global, words: &[Name], text: &[u8]) -> Result<String, Trouble> {
    let call = Call {
        words,
        file: FILE,
        text,
        piece: 4096,
        fails: 0,
    };
    let came = make(alloc, call)?;
    Ok(shown(alloc, &came)?)
}

/// Whether a text with this answer breaks no rule: it is run, or of no form that can be run yet.
fn is_met(answer: &str) -> bool {
    answer == "done" || answer == "NotBuilt"
}

/// Whether a text with this answer is a design file by the grammar.
fn is_read(answer: &str) -> bool {
    is_met(answer) || answer.starts_with("Static ")
}

/// What is compared of an answer. `met` is a text that breaks no rule, and `read` one of the grammar.
fn as_wanted<'a>(wanted: &'a str, answer: &'a str) -> &'a str {
    match wanted {
        "met" if is_met(answer) => wanted,
        "read" if is_read(answer) => wanted,
        _ => answer,
    }
}

/// Compares an answer with what is wanted.
pub fn compare(place: Place<'_>, wanted: &str, answer: &str, report: &mut Report) {
    report.case(place, wanted, as_wanted(wanted, answer));
}

/// What is wanted, with the place of the mark, where there is one.
fn with_mark(alloc: Global, wanted: &str, mark: Option<usize>) -> Result<String, AllocError> {
    let mut words = String::from_str(alloc, wanted)?;
    if let Some(place) = mark {
        write!(words, " {place}")?;
    }
    Ok(words)
}

/// A row `ANSWER | TEXT`.
pub fn try_answer(alloc: Global, place: Place<'_>, report: &mut Report) -> Result<(), Trouble> {
    let (wanted, written) = place.text.split_once(" | ").ok_or(Trouble::Malformed)?;
    let text = text_of(alloc, written)?;
    let words = run_words(alloc)?;
    let came = answer(alloc, words.as_slice(), text.bytes.as_slice())?;
    let wanted = with_mark(alloc, wanted, text.mark)?;
    compare(place, wanted.as_str(), came.as_str(), report);
    Ok(())
}
