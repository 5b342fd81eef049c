//! Whole calls of the command over a host in memory.
ghost use Rattle.std.specs.Prelude.{IfOk, ◌<◌};
ghost use Rattle.sim_host.specs.Host.{HasDistinctNames};
ghost use Rattle.sim_host.specs.Memory.{entries};

use sim_command::{Status, vhpisim_main};
use sim_host::{Channel, MemoryHost, Name, memory_host, name};
use sim_memory::NoMemory;
use std::alloc::Global;

/// The name of the one file of a host.
pub const FILE: &str = "W";

/// A call of the command: its words, the name and the text of the one file, how many bytes a read gives at most, and
/// the number of the host call that fails, or 0.
#[derive(Clone, Copy)]
pub struct Call<'a> {
    pub words: &'a [Name],
    pub file: &'a str,
    pub text: &'a [u8],
    pub piece: usize,
    pub fails: u64,
}

/// What a call came to.
#[derive(Drop)]
pub struct Came {
    pub status: Status,
    pub host: MemoryHost,
}

impl Came {
    pub fn out(&self) -> &[u8] {
        self.host.written(Channel::Out)
    }

    pub fn err(&self) -> &[u8] {
        self.host.written(Channel::Err)
    }

    /// How often the host was asked for a file.
    pub fn times_asked(&self) -> usize {
        self.host.asked().len()
    }

    /// Whether a file was written.
    pub fn has_saved(&self) -> bool {
        !self.host.written(Channel::File).is_empty()
    }
}

fn one_file(alloc: Global, file: &str, text: &[u8]) -> Result<Vec<(Name, Vec<u8>)>, NoMemory>
    ensures { IfOk result (λ files. HasDistinctNames (entries files.items)) }
{
    let mut files = Vec::new(alloc);
    files.push((name(alloc, file)?, Vec::from_slice(alloc, text)?))?;
    Ok(files)
}

/// A host with one file.
pub fn host_of(
    alloc: Global,
    file: &str,
    text: &[u8],
    piece: usize,
    fails: u64,
) -> Result<MemoryHost, NoMemory>
    requires { 0 < piece }
{
    let files = one_file(alloc, file, text)?;
    let fails = Vec::from_slice(alloc, &[fails])?;
    memory_host(alloc, files, piece, fails)
}

/// Makes a call.
pub fn make(alloc: Global, call: Call<'_>) -> Result<Came, NoMemory> {
    let mut host = host_of(alloc, call.file, call.text, call.piece.max(1), call.fails)?;
    let status = vhpisim_main(alloc, call.words, &mut host);
    Ok(Came { status, host })
}

/// The words of a run of one cycle of the one file.
pub fn run_words(alloc: Global) -> Result<Vec<Name>, NoMemory> {
    let mut words = Vec::new(alloc);
    for word in ["run", FILE, "1"] {
        words.push(name(alloc, word)?)?;
    }
    Ok(words)
}
