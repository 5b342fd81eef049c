//! Cases of one line.

use crate::answers::try_answer;
use crate::formats::format_came;
use crate::forms::{design_of_text, form_of_text};
use crate::hosts::{call_came, names_came, read_came};
use crate::kinds::Kind;
use crate::lines::line_came;
use crate::logic::logic_came;
use crate::meanings::meaning_of;
use crate::report::{Place, Report};
use crate::state::State;
use crate::sweeps::try_sweep;
use crate::telling::told_came;
use crate::tokens::{spelling_came, tokens_came};
use crate::trouble::Trouble;
use crate::types::types_came;
use sim_host::Host;
use std::alloc::Global;

/// What comes of a row behind what is wanted.
fn came_of(alloc: Global, kind: Kind, given: &str) -> Result<String, Trouble> {
    match kind {
        Kind::Tokens => tokens_came(alloc, given),
        Kind::Spellings => spelling_came(alloc, given),
        Kind::Told => told_came(alloc, given),
        Kind::Types => types_came(alloc, given),
        Kind::Designs => design_of_text(alloc, given),
        Kind::Forms => form_of_text(alloc, given),
        Kind::Meanings => meaning_of(alloc, given),
        Kind::Formats => format_came(alloc, given),
        Kind::Logic => logic_came(alloc, given),
        Kind::Lines => line_came(alloc, given),
        Kind::Reads => read_came(alloc, given),
        Kind::Names => names_came(alloc, given),
        _ => Err(Trouble::Malformed),
    }
}

/// What comes of a row that asks the state or the real files, or of any other row.
fn any_came<H: Host>(
    alloc: Global,
    host: &mut H,
    kind: Kind,
    state: &mut State,
    given: &str,
) -> Result<String, Trouble> {
    match kind {
        Kind::Files => call_came(alloc, host, given),
        Kind::Regions | Kind::Waves | Kind::Hosts => state.came(alloc, kind, given),
        _ => came_of(alloc, kind, given),
    }
}

/// A step, or a row `WANTED | GIVEN`.
fn try_given<H: Host>(
    alloc: Global,
    host: &mut H,
    kind: Kind,
    place: Place<'_>,
    state: &mut State,
    report: &mut Report,
) -> Result<(), Trouble> {
    if state.step(alloc, kind, place.text)? {
        return Ok(());
    }
    let (wanted, given) = place.text.split_once(" | ").ok_or(Trouble::Malformed)?;
    let came = any_came(alloc, host, kind, state, given)?;
    report.case(place, wanted, came.as_str());
    Ok(())
}

/// Tries a row, and says what differs.
pub fn try_row<H: Host>(
    alloc: Global,
    host: &mut H,
    kind: Kind,
    place: Place<'_>,
    state: &mut State,
    report: &mut Report,
) -> Result<(), Trouble> {
    match kind {
        Kind::Answers => try_answer(alloc, place, report),
        Kind::Sweeps => try_sweep(alloc, place, report),
        _ => try_given(alloc, host, kind, place, state, report),
    }
}
