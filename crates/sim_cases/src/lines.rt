//! Entries of the journal with their lines, in a design whose one instance is `top` and whose one net is `s`.

use crate::out::Out;
use crate::report::push_escaped;
use crate::texts::number_of;
use crate::trouble::Trouble;
use sim_design::{Design, Instance, Net};
use sim_journal::{End, Entry, append_entry, print_entry};
use sqlite_items::Items;
use std::alloc::{AllocError, Global};

fn design(alloc: Global) -> Result<Design, AllocError> {
    let mut instances = Items::new(alloc);
    instances.push(Instance {
        name: Items::from_slice(alloc, b"top")?,
        architecture: Items::from_slice(alloc, b"a")?,
    })?;
    let mut nets = Items::new(alloc);
    nets.push(Net {
        instance: 0,
        name: Items::from_slice(alloc, b"s")?,
        default: 0,
    })?;
    Ok(Design {
        instances,
        nets,
        processes: Items::new(alloc),
    })
}

fn small(written: &str) -> Result<u32, Trouble> {
    u32::try_from(number_of(written)?)
        .ok()
        .ok_or(Trouble::Malformed)
}

fn end_of(word: &str, now: u64, cycle: u32) -> Result<Entry, Trouble> {
    match word {
        "quiet" => Ok(Entry::Ended(End::Quiet { now, cycle })),
        "limit" => Ok(Entry::Ended(End::CycleLimit { now, cycle })),
        _ => Err(Trouble::Malformed),
    }
}

/// A cycle by its time, its delta cycles and its number.
fn time_of(written: &str) -> Result<Entry, Trouble> {
    let (now, rest) = written.split_once(" ").ok_or(Trouble::Malformed)?;
    let (delta, cycle) = rest.split_once(" ").ok_or(Trouble::Malformed)?;
    let (now, delta, cycle) = (number_of(now)? as u64, small(delta)?, small(cycle)?);
    Ok(Entry::Time { now, delta, cycle })
}

fn entry_of(given: &str) -> Result<Entry, Trouble> {
    let (word, rest) = given.split_once(" ").ok_or(Trouble::Malformed)?;
    if word == "time" {
        return time_of(rest);
    }
    let (first, second) = rest.split_once(" ").ok_or(Trouble::Malformed)?;
    if word == "event" {
        let net = small(first)?;
        let value = i64::from(small(second)?);
        return Ok(Entry::Event { net, value });
    }
    end_of(word, number_of(first)? as u64, small(second)?)
}

/// The line of an entry, as `print_entry` gives it and as `append_entry` adds it.
pub fn line_came(alloc: Global, given: &str) -> Result<String, Trouble> {
    let entry = entry_of(given)?;
    let design = design(alloc)?;
    let line = print_entry(alloc, &design, &entry)?;
    let mut added = Vec::new(alloc);
    append_entry(&mut added, &design, &entry)?;
    Ok(shown(alloc, line.as_slice(), added.as_slice())?)
}

fn shown(alloc: Global, line: &[u8], added: &[u8]) -> Result<String, AllocError> {
    let mut out = Out::new(alloc);
    out.put("line ");
    push_escaped(&mut out, line);
    if added != line {
        out.put(" and added ");
        push_escaped(&mut out, added);
    }
    out.finish()
}
