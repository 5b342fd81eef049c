//! Edits of a projected output waveform, step by step.

use crate::out::Out;
use crate::texts::number_of;
use crate::trouble::Trouble;
use sim_waves::{DelayMode, Transaction, Wave};
use std::alloc::{AllocError, Global};

/// A transaction, as `1@5`.
fn transaction_of(written: &str) -> Result<Transaction, Trouble> {
    let (value, time) = written.split_once("@").ok_or(Trouble::Malformed)?;
    let value = i64::try_from(number_of(value)?)
        .ok()
        .ok_or(Trouble::Malformed)?;
    let time = number_of(time)? as u64;
    Ok(Transaction { value, time })
}

fn mode_of(word: &str) -> Result<DelayMode, Trouble> {
    match word {
        "transport" => Ok(DelayMode::Transport),
        "inertial" => Ok(DelayMode::Inertial),
        _ => Err(Trouble::Malformed),
    }
}

fn assign_one(
    wave: &mut Wave,
    mode: DelayMode,
    reject: u64,
    new: Transaction,
) -> Result<(), Trouble> {
    if reject > new.time {
        return Err(Trouble::Malformed);
    }
    wave.assign(mode, reject, &[new])?;
    Ok(())
}

fn assign_two(
    wave: &mut Wave,
    mode: DelayMode,
    reject: u64,
    new: Transaction,
    next: Transaction,
) -> Result<(), Trouble> {
    if reject > new.time || new.time >= next.time {
        return Err(Trouble::Malformed);
    }
    wave.assign(mode, reject, &[new, next])?;
    Ok(())
}

/// `MODE REJECT TRANSACTION`, with one transaction or two.
fn assign(wave: &mut Wave, written: &str) -> Result<(), Trouble> {
    let (mode, rest) = written.split_once(" ").ok_or(Trouble::Malformed)?;
    let (reject, rest) = rest.split_once(" ").ok_or(Trouble::Malformed)?;
    let mode = mode_of(mode)?;
    let reject = number_of(reject)? as u64;
    match rest.split_once(" ") {
        Some((new, next)) => {
            assign_two(
                wave,
                mode,
                reject,
                transaction_of(new)?,
                transaction_of(next)?,
            )
        }
        None => assign_one(wave, mode, reject, transaction_of(rest)?),
    }
}

fn pending(alloc: Global, wave: &Wave) -> Result<String, AllocError> {
    let mut out = Out::new(alloc);
    for transaction in wave.pending() {
        out.show(transaction.value);
        out.put("@");
        out.show(transaction.time);
        out.put(" ");
    }
    out.finish_list()
}

fn next_time(alloc: Global, wave: &Wave) -> Result<String, AllocError> {
    match wave.next_time() {
        Some(time) => format!(in alloc; "{time}"),
        None => String::from_str(alloc, "none"),
    }
}

fn current(alloc: Global, wave: &Wave) -> Result<String, AllocError> {
    let value = wave.current();
    format!(in alloc; "{value}")
}

fn activate(alloc: Global, wave: &mut Wave, time: &str) -> Result<String, Trouble> {
    let is_active = wave.activate(number_of(time)? as u64);
    Ok(String::from_str(alloc, if is_active { "yes" } else { "no" })?)
}

/// A step that changes the waveform. Whether it is one.
pub fn wave_step(alloc: Global, wave: &mut Wave, written: &str) -> Result<bool, Trouble> {
    if written == "begin" {
        *wave = Wave::new(alloc, 0);
        return Ok(true);
    }
    match written.strip_prefix("assign ") {
        Some(rest) => {
            assign(wave, rest)?;
            Ok(true)
        }
        None => Ok(false),
    }
}

/// What is asked of the waveform.
pub fn wave_came(alloc: Global, wave: &mut Wave, given: &str) -> Result<String, Trouble> {
    match given {
        "pending" => Ok(pending(alloc, wave)?),
        "next" => Ok(next_time(alloc, wave)?),
        "current" => Ok(current(alloc, wave)?),
        _ => {
            let time = given.strip_prefix("activate ").ok_or(Trouble::Malformed)?;
            activate(alloc, wave, time)
        }
    }
}
