ghost use Rattle.std.specs.Prelude.{◌≡◌, ℕ, ◌+◌, ◌-◌, ◌^◌, ◌<◌, ◌≤◌, ◌↔◌, ◌⊎◌, [], min, length, take, ⊤, None, Some, IfOk, IfErr, IfSome, IsOkAnd, IsTrue, OnOk, OnErr, MatchOption, MatchResult, bytes_eq, position};
ghost use Rattle.sim_host.specs.Host.{FailsToCreate, FailsToStart, HasCause, HasDistinctNames, MayWrite, Reads, TakesSome, TextHas, bytes_of, content_of, created, started, wrote};
ghost use Rattle.sim_host.specs.Memory.{CountsCall, FaultsWhere, IsListed, IsMissing, counted_up, entries, fresh, seen_of, text_at};

use crate::channels::Channel;
use crate::errors::HostError;
use crate::hosts::Host;
use crate::names::{Asked, Name};
use sim_memory::NoMemory;
use std::alloc::Global;
use std::marker::Model;

/// Which file is being read, and the place of its first byte that is left.
#[derive(Clone, Copy)]
struct Reading {
    file: usize,
    place: usize,
}

/// A host in memory: it holds files, what the three channels hold and what was asked for, and tells all of it.
///
/// It gives at most `piece` bytes a read, and answers a fault exactly where the number of the call is on its list,
/// or where `start` names no file that it holds. The calls of `start`, `read`, `create` and `write` are counted
/// from 1, and the number stays at 2^64 - 1 once it is there.
#[derive(Drop)]
pub struct MemoryHost {
    alloc: Global,
    files: Vec<(Name, Vec<u8>)>,
    reading: Option<Reading>,
    out: Vec<u8>,
    err: Vec<u8>,
    file: Vec<u8>,
    asked: Vec<Asked>,
    is_created: bool,
    piece: usize,
    fails: Vec<u64>,
    calls: u64,
    faults: u64,
}

impl Model for MemoryHost {
    ghost use Rattle.sim_host.specs.Memory.{Memory};

    ghost Value = { Memory };

    ghost use Rattle.sim_host.specs.MemoryView.{IsSound, memory_of};

    ghost view = { memory_of };

    ghost invariant = { IsSound };
}

/// A host of these files that gives at most `piece` bytes a read, and fails at the calls whose numbers are in `fails`.
pub fn memory_host(
    alloc: Global,
    files: Vec<(Name, Vec<u8>)>,
    piece: usize,
    fails: Vec<u64>,
) -> Result<MemoryHost, NoMemory>
    requires gives_some { 0 < piece }
    requires distinct { HasDistinctNames (entries files.items) }
    ensures { IsOkAnd result (λ host. host ≡ fresh (entries files.items) piece fails.items) }
{
    Ok(MemoryHost {
        alloc,
        files,
        reading: None,
        out: Vec::new(alloc),
        err: Vec::new(alloc),
        file: Vec::new(alloc),
        asked: Vec::new(alloc),
        is_created: false,
        piece,
        fails,
        calls: 0,
        faults: 0,
    })
}

/// A host of these files that gives at most `piece` bytes a read. Only a missing file is a fault.
pub fn memory_host_without_faults(
    alloc: Global,
    files: Vec<(Name, Vec<u8>)>,
    piece: usize,
) -> Result<MemoryHost, NoMemory>
    requires gives_some { 0 < piece }
    requires distinct { HasDistinctNames (entries files.items) }
    ensures { IsOkAnd result (λ host. host ≡ fresh (entries files.items) piece []) }
{
    memory_host(alloc, files, piece, Vec::new(alloc))
}

impl MemoryHost {
    /// What the channel holds.
    pub fn written(&self, channel: Channel) -> &[u8]
        ensures { content_of channel (seen_of self.now).written ≡ Some result.now }
    {
        match channel {
            Channel::Out => self.out.as_slice(),
            Channel::Err => self.err.as_slice(),
            Channel::File => self.file.as_slice(),
        }
    }

    /// What `start` and `create` were asked for, in order.
    pub fn asked(&self) -> &[Asked]
        ensures { result.now ≡ self.now.asked }
    {
        self.asked.as_slice()
    }

    /// Counts a call, and answers whether it is to fail.
    fn count_call(&mut self) -> bool
        ensures listed { IsTrue result ↔ IsListed self.old }
        ensures counted { self.new ≡ record self.old { calls = counted_up self.old.calls } }
    {
        self.calls = self.calls.saturating_add(1);
        self.fails.contains(&self.calls)
    }

    /// Counts a fault.
    fn fault(&mut self) -> HostError
        ensures fault { result ≡ HostError.Fault }
        ensures counted { self.new ≡ record self.old { faults = counted_up self.old.faults } }
        ensures later { self.old.faults ≤ self.new.faults }
    {
        self.faults = self.faults.saturating_add(1);
        HostError::Fault
    }
}

impl Host for MemoryHost {
    ghost seen = { seen_of };

    ghost faults = { λ m. m.faults };

    /// Begins the named file. A fault exactly where this call is to fail, or no file has the name.
    fn start(&mut self, name: &Name) -> Result<(), HostError>
        ensures ok { OnOk result (seen_of self.new ≡ started name.now (seen_of self.old)) }
        ensures found { OnOk result (TextHas name.now (seen_of self.old) (λ _. ⊤)) }
        ensures err { OnErr result (FailsToStart name.now result (seen_of self.old) (seen_of self.new)) }
        ensures cause { HasCause self.old.faults self.new.faults result }

        ensures fault { FaultsWhere (IsListed self.old ⊎ IsMissing name.now self.old) result }
        ensures counted { CountsCall self.old self.new result }
    {
        let fails = self.count_call();
        self.reading = None;
        let asked = name.copy(self.alloc)?;
        self.asked.push(Asked::Start(asked))?;
        if fails {
            return Err(self.fault());
        }
        match place_of(&self.files, name) {
            Some(file) => {
                self.reading = Some(Reading { file, place: 0 });
                Ok(())
            }
            None => Err(self.fault()),
        }
    }

    /// Gives as many bytes as `buf` takes, `piece` allows and are left. A fault exactly where this call is to fail.
    fn read(&mut self, buf: &mut [u8]) -> Result<usize, HostError>
        requires { IsTrue (seen_of self.old).is_begun }
        ensures bound { IfOk result (λ n. n ≤ length buf.old) }
        ensures ok { IfOk result (λ n. Reads (take n buf.new) (seen_of self.old) (seen_of self.new)) }
        ensures end { 0 < length buf.old
            → IfOk result (λ n. IfSome (seen_of self.old).left (λ left. (n ≡ 0) ↔ (left ≡ []))) }
        ensures err { OnErr result (seen_of self.new ≡ seen_of self.old) }
        ensures cause { HasCause self.old.faults self.new.faults result }

        ensures fault { FaultsWhere (IsListed self.old) result }
        ensures only_fault { IfErr result (λ e. e ≡ HostError.Fault) }
        ensures piece { IfOk result (λ n. IfSome self.old.left (λ left.
            n ≡ min (min (length buf.old) self.old.piece) (length left))) }
        ensures counted { CountsCall self.old self.new result }
    {
        if self.count_call() {
            return Err(self.fault());
        }
        let Some(reading) = &mut self.reading else {
            unreachable!()
        };
        let text = bytes_at(&self.files, reading.file);
        let (_, left) = text.split_at(reading.place);
        let count = copy_front(buf, left, self.piece);
        reading.place += count;
        Ok(count)
    }

    /// Begins the channel File anew. A fault exactly where this call is to fail.
    fn create(&mut self, name: &Name) -> Result<(), HostError>
        ensures ok { OnOk result (seen_of self.new ≡ created name.now (seen_of self.old)) }
        ensures err { OnErr result (FailsToCreate name.now result (seen_of self.old) (seen_of self.new)) }
        ensures cause { HasCause self.old.faults self.new.faults result }

        ensures fault { FaultsWhere (IsListed self.old) result }
        ensures counted { CountsCall self.old self.new result }
    {
        let fails = self.count_call();
        self.is_created = false;
        let asked = name.copy(self.alloc)?;
        self.asked.push(Asked::Create(asked))?;
        if fails {
            return Err(self.fault());
        }
        self.file.clear();
        self.is_created = true;
        Ok(())
    }

    /// Adds the whole part to the channel. A fault exactly where this call is to fail.
    fn write(&mut self, to: Channel, part: &[u8]) -> Result<usize, HostError>
        requires { MayWrite to (seen_of self.old) }
        ensures some { IfOk result (λ n. TakesSome n part.now) }
        ensures ok { IfOk result (λ n. seen_of self.new ≡ wrote to (take n part.now) (seen_of self.old)) }
        ensures err { OnErr result (seen_of self.new ≡ seen_of self.old) }
        ensures cause { HasCause self.old.faults self.new.faults result }

        ensures fault { FaultsWhere (IsListed self.old) result }
        ensures whole { IfOk result (λ n. n ≡ length part.now) }
        ensures counted { CountsCall self.old self.new result }
    {
        if self.count_call() {
            return Err(self.fault());
        }
        match to {
            Channel::Out => self.out.extend_from_slice(part)?,
            Channel::Err => self.err.extend_from_slice(part)?,
            Channel::File => self.file.extend_from_slice(part)?,
        }
        Ok(part.len())
    }
}

/// The place of the first file of this name.
fn place_of(files: &[(Name, Vec<u8>)], name: &Name) -> Option<usize>
    ensures { result ≡ position (λ f. bytes_eq f.0 name.now) files.now }
{
    files.iter().position(|file| file.0.is(name))
}

/// The bytes of the file at a place.
fn bytes_at(files: &[(Name, Vec<u8>)], at: usize) -> &[u8]
    requires { at < length files.now }
    ensures { result.now ≡ text_at at files.now }
{
    files[at].1.as_slice()
}

/// Copies the first bytes, at most `most` of them, and answers how many.
fn copy_front(buf: &mut [u8], from: &[u8], most: usize) -> usize
    ensures count { result ≡ min (min (length buf.old) most) (length from.now) }
    ensures copied { take result buf.new ≡ take result from.now }
{
    let count = buf.len().min(most).min(from.len());
    buf[..count].copy_from_slice(&from[..count]);
    count
}
