//! Calls of hosts: whole files that are read, and what is written to channels.

use crate::calls::host_of;
use crate::out::Out;
use crate::texts::{bytes_of, number_of};
use crate::trouble::Trouble;
use sim_host::{
    Asked, Channel, Host, HostError, MemoryHost, Name, ReadError, name, read_all, write_all,
};
use sim_memory::NoMemory;
use std::alloc::{AllocError, Global};

/// The one file of the host.
const FILE: &str = "a.vhd";

fn asked_once(host: &MemoryHost, at: &Name) -> bool {
    matches!(host.asked(), [Asked::Start(name)] if name.bytes() == at.bytes())
}

fn push_read(out: &mut Out, answer: &Result<Vec<u8>, ReadError>) {
    match answer {
        Ok(bytes) => {
            out.put("read ");
            out.bytes(bytes.as_slice());
        }
        Err(error) => out.show(*error),
    }
}

fn shown(alloc: Global, answer: &Result<Vec<u8>, ReadError>) -> Result<String, AllocError> {
    let mut out = Out::new(alloc);
    push_read(&mut out, answer);
    out.finish_list()
}

/// Reads a file: `NAME LIMIT CALL TEXT` has the file that is asked for, the most bytes, the number of the call that
/// fails or 0, and what the host's file has.
pub fn read_came(alloc: Global, given: &str) -> Result<String, Trouble> {
    let (file, rest) = given.split_once(" ").ok_or(Trouble::Malformed)?;
    let (limit, rest) = rest.split_once(" ").ok_or(Trouble::Malformed)?;
    let (call, text) = rest.split_once(" ").ok_or(Trouble::Malformed)?;
    let (limit, call) = (number_of(limit)?, number_of(call)? as u64);
    let text = bytes_of(alloc, text)?;
    let at = name(alloc, file)?;
    let mut host = host_of(alloc, FILE, text.as_slice(), 2, call)?;
    let answer = read_all(alloc, &mut host, &at, limit);
    if !asked_once(&host, &at) {
        return Ok(String::from_str(alloc, "not asked once")?);
    }
    Ok(shown(alloc, &answer)?)
}

/// Begins the channel File under this name, and writes all of it.
fn save<H: Host>(host: &mut H, at: &Name, text: &[u8]) -> Result<(), HostError> {
    host.create(at)?;
    write_all(host, Channel::File, text)
}

fn done(alloc: Global, answer: Result<(), HostError>) -> Result<String, AllocError> {
    match answer {
        Ok(()) => String::from_str(alloc, "done"),
        Err(error) => format!(in alloc; "{error:?}"),
    }
}

fn save_came<H: Host>(alloc: Global, host: &mut H, written: &str) -> Result<String, Trouble> {
    let (file, text) = written.split_once(" ").ok_or(Trouble::Malformed)?;
    let text = bytes_of(alloc, text)?;
    let at = name(alloc, file)?;
    let answer = save(host, &at, text.as_slice());
    Ok(done(alloc, answer)?)
}

fn write_came<H: Host>(alloc: Global, host: &mut H, written: &str) -> Result<String, Trouble> {
    let (channel, text) = written.split_once(" ").ok_or(Trouble::Malformed)?;
    let text = bytes_of(alloc, text)?;
    let answer = match channel {
        "Out" => write_all(host, Channel::Out, text.as_slice()),
        "Err" => write_all(host, Channel::Err, text.as_slice()),
        _ => return Err(Trouble::Malformed),
    };
    Ok(done(alloc, answer)?)
}

fn whole_came<H: Host>(alloc: Global, host: &mut H, written: &str) -> Result<String, Trouble> {
    let (file, limit) = written.split_once(" ").ok_or(Trouble::Malformed)?;
    let limit = number_of(limit)?;
    let at = name(alloc, file)?;
    let answer = read_all(alloc, host, &at, limit);
    Ok(shown(alloc, &answer)?)
}

/// A call of any host: `save NAME TEXT`, `write CHANNEL TEXT` or `read NAME LIMIT`.
pub fn call_came<H: Host>(alloc: Global, host: &mut H, given: &str) -> Result<String, Trouble> {
    let (word, rest) = given.split_once(" ").ok_or(Trouble::Malformed)?;
    match word {
        "save" => save_came(alloc, host, rest),
        "write" => write_came(alloc, host, rest),
        "read" => whole_came(alloc, host, rest),
        _ => Err(Trouble::Malformed),
    }
}

/// A host in memory with an empty file, that fails at this call.
pub fn empty_host(alloc: Global, fails: u64) -> Result<MemoryHost, NoMemory> {
    host_of(alloc, FILE, b"", 2, fails)
}

fn push_asked(out: &mut Out, asked: &Asked) {
    match asked {
        Asked::Start(name) => {
            out.put("start ");
            out.bytes(name.bytes());
        }
        Asked::Create(name) => {
            out.put("create ");
            out.bytes(name.bytes());
        }
    }
    out.put(" ");
}

fn asked_shown(alloc: Global, host: &MemoryHost) -> Result<String, AllocError> {
    let mut out = Out::new(alloc);
    for asked in host.asked() {
        push_asked(&mut out, asked);
    }
    out.finish_list()
}

fn channel_shown(alloc: Global, host: &MemoryHost, channel: Channel) -> Result<String, AllocError> {
    let mut out = Out::new(alloc);
    out.bytes(host.written(channel));
    out.finish()
}

/// A call of a host in memory, or what it has: `written CHANNEL` or `asked`.
pub fn memory_came(alloc: Global, host: &mut MemoryHost, given: &str) -> Result<String, Trouble> {
    match given {
        "asked" => Ok(asked_shown(alloc, host)?),
        "written Out" => Ok(channel_shown(alloc, host, Channel::Out)?),
        "written Err" => Ok(channel_shown(alloc, host, Channel::Err)?),
        "written File" => Ok(channel_shown(alloc, host, Channel::File)?),
        _ => call_came(alloc, host, given),
    }
}

/// Whether two names are the same, the first of them copied.
pub fn names_came(alloc: Global, given: &str) -> Result<String, Trouble> {
    let (one, other) = given.split_once(" ").ok_or(Trouble::Malformed)?;
    let one = name(alloc, one)?.copy(alloc)?;
    let other = name(alloc, other)?;
    Ok(String::from_str(alloc, if one.is(&other) { "yes" } else { "no" })?)
}
