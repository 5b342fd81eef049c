//! The program: it hands the words after its name, and the real files and streams, to the command,
//! and ends with the command's status.
#![tactic(auto)]

use sim_command::{Status, vhpisim_main};
use sim_host::{Channel, FileHost, Host, Name, name, write_all};
use std::process::ExitCode;
use std::{env, io};

/// The words after the program's name. A word that isn't UTF-8 makes them none, which is no command.
fn words(rt: &(impl env::Env + AllocGlobal)) -> io::Result<Vec<Name>> {
    let mut words = Vec::new(rt.alloc());
    let args = match env::args(rt) {
        Ok(args) => args,
        Err(error) if error.kind() == io::ErrorKind::OutOfMemory => return Err(error),
        Err(_) => return Ok(words),
    };
    for word in args.skip(1) {
        match name(rt.alloc(), word.as_str()) {
            Ok(word) => words.push(word)?,
            Err(_) => return Err(io::Error::from(io::ErrorKind::OutOfMemory)),
        }
    }
    Ok(words)
}

/// What is done where there is no memory for the words.
fn without_words<H: Host>(host: &mut H) -> Status {
    let _ = write_all(host, Channel::Err, b"vhpisim: no memory\n");
    Status::NoMemory
}

fn main(rt: HostRuntime) -> io::Result<ExitCode> {
    let mut host = FileHost::new(rt.clone()?, rt.stdout(), rt.stderr());
    let status = match words(&rt) {
        Ok(words) => vhpisim_main(rt.alloc(), words.as_slice(), &mut host),
        Err(_) => without_words(&mut host),
    };
    Ok(ExitCode::from(status as u8))
}
