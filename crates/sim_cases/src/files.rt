//! A file of cases: its kind, and its cases one after the other.

use crate::blocks::try_blocks;
use crate::kinds::{Kind, kind_of};
use crate::report::{Place, Report};
use crate::rows::try_row;
use crate::state::State;
use crate::trouble::Trouble;
use sim_host::Host;
use std::alloc::Global;

fn is_comment(line: &str) -> bool {
    line == "#" || line.starts_with("# ")
}

/// Whether a line says something, and isn't the one that says the kind.
pub fn is_said(line: &str) -> bool {
    !line.is_empty() && !is_comment(line) && !line.starts_with("kind ")
}

/// The kind of the file. There is one line that says it.
fn file_kind(text: &str) -> Option<Kind> {
    let mut found = None;
    for line in text.lines() {
        if let Some(word) = line.strip_prefix("kind ") {
            if found.is_some() {
                return None;
            }
            found = Some(word);
        }
    }
    kind_of(found?)
}

fn try_rows<H: Host>(
    alloc: Global,
    host: &mut H,
    kind: Kind,
    file: &str,
    text: &str,
    state: &mut State,
    report: &mut Report,
) -> Result<(), Trouble> {
    let mut number = 0usize;
    for line in text.lines() {
        number = number.saturating_add(1);
        if is_said(line) {
            let place = Place {
                file,
                line: number,
                text: line,
            };
            let tried = try_row(alloc, host, kind, place, state, report);
            report.settle(place, tried)?;
        }
    }
    Ok(())
}

fn try_cases<H: Host>(
    alloc: Global,
    host: &mut H,
    file: &str,
    text: &str,
    report: &mut Report,
) -> Result<(), Trouble> {
    let kind = file_kind(text).ok_or(Trouble::Malformed)?;
    if kind.has_blocks() {
        return try_blocks(alloc, kind, file, text, report);
    }
    let mut state = State::new(alloc)?;
    try_rows(alloc, host, kind, file, text, &mut state, report)
}

/// What is said of a file, and whether all its cases came as they are wanted.
#[derive(Drop)]
pub struct Tried {
    pub text: String,
    pub is_well: bool,
}

/// Tries all cases of a file. `host` has the real files.
pub fn try_file<H: Host>(
    alloc: Global,
    host: &mut H,
    name: &[u8],
    bytes: &[u8],
) -> Result<Tried, Trouble> {
    let mut report = Report::new(alloc);
    let file = std::str::from_utf8(name).unwrap_or("?");
    let place = Place {
        file,
        line: 1,
        text: "",
    };
    let tried = match std::str::from_utf8(bytes) {
        Ok(text) => try_cases(alloc, host, file, text, &mut report),
        Err(_) => Err(Trouble::Malformed),
    };
    report.settle(place, tried)?;
    let is_well = report.is_well();
    let group = file.strip_suffix(".txt").unwrap_or(file);
    let text = report.finish(group)?;
    Ok(Tried { text, is_well })
}
