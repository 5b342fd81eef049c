//! Worked cases as data: each file of cases that the words name is read, each case in it is tried, and what came is
//! compared with what is wanted. `docs/CASES.md` has the layout of the files.
#![tactic(auto)]

mod answers;
mod blocks;
mod calls;
mod entries;
mod files;
mod formats;
mod forms;
mod hosts;
mod kinds;
mod lines;
mod logic;
mod meanings;
mod out;
mod printing;
mod regions;
mod report;
mod rows;
mod state;
mod sweeps;
mod telling;
mod texts;
mod tokens;
mod trouble;
mod types;
mod units;
mod values;
mod waves;

use sim_host::{Channel, FileHost, Host, Name, name, read_all, write_all};
use std::alloc::Global;
use std::process::ExitCode;
use std::{env, io};

/// The most bytes that a file of cases may have.
const MOST_BYTES: usize = 16_777_216;

/// The names of the files of cases.
fn file_names(rt: &(impl env::Env + AllocGlobal)) -> io::Result<Vec<Name>> {
    let mut names = Vec::new(rt.alloc());
    for word in env::args(rt)?.skip(1) {
        match name(rt.alloc(), word.as_str()) {
            Ok(word) => names.push(word)?,
            Err(_) => return Err(io::Error::from(io::ErrorKind::OutOfMemory)),
        }
    }
    Ok(names)
}

/// Writes to standard output. Whether that went well.
fn say<H: Host>(host: &mut H, text: &str) -> bool {
    write_all(host, Channel::Out, text.as_bytes()).is_ok()
}

/// Tries the cases of a file, and says what differed and how many cases there are. Whether all is well.
fn is_well<H: Host>(alloc: Global, host: &mut H, name: &Name) -> bool {
    let Ok(bytes) = read_all(alloc, host, name, MOST_BYTES) else {
        say(host, "a file of cases can't be read\n");
        return false;
    };
    match files::try_file(alloc, host, name.bytes(), bytes.as_slice()) {
        Ok(tried) => say(host, tried.text.as_str()) && tried.is_well,
        Err(_) => {
            say(host, "no memory\n");
            false
        }
    }
}

fn main(rt: HostRuntime) -> io::Result<ExitCode> {
    let names = file_names(&rt)?;
    let mut host = FileHost::new(rt.clone()?, rt.stdout(), rt.stderr());
    let mut well = !names.is_empty();
    for name in &names {
        if !is_well(rt.alloc(), &mut host, name) {
            well = false;
        }
    }
    Ok(ExitCode::from(if well { 0 } else { 1 }))
}
