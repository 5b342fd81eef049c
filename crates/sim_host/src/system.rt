ghost use Rattle.std.specs.Prelude.{◌≡◌, ◌+◌, ◌-◌, ◌^◌, ◌≤◌, false, min, is_some, IfNone, IfSome};
ghost use Rattle.sim_host.specs.Host.{TakesSome};
ghost use Rattle.sim_host.specs.Silent.{silent};

use crate::channels::Channel;
use crate::errors::HostError;
use crate::hosts::Host;
use crate::names::Name;
use std::fs;
use std::io::{Read, Write};
use std::rt::Files;

/// The real files and streams: Out and Err are the two streams that it is given, and File is a file.
///
/// It tells nothing of what they hold, and is the trusted edge. Each failure of the system is a fault.
#[derive(Drop)]
pub struct FileHost<R: Files + Drop, O: Print + Drop, E: Print + Drop> {
    files: R,
    out: O,
    err: E,
    reading: Option<R::File>,
    creating: Option<R::File>,
    faults: u64,
}

impl<R: Files + Drop, O: Print + Drop, E: Print + Drop> FileHost<R, O, E> {
    /// The host of these files, of standard output and of standard error, as `main` is handed them. Nothing is begun,
    /// and there was no fault.
    pub fn new(files: R, out: O, err: E) -> Self
        ensures nothing_begun { ⟦<FileHost<R, O, E> as Host>⟧.seen result ≡ silent false false }
        ensures no_faults { ⟦<FileHost<R, O, E> as Host>⟧.faults result ≡ 0 }
    {
        FileHost {
            files,
            out,
            err,
            reading: None,
            creating: None,
            faults: 0,
        }
    }

    /// Counts a fault.
    fn fault(&mut self) -> HostError
        ensures fault { result ≡ HostError.Fault }
        ensures counted { self.new ≡ record self.old { faults = min (self.old.faults + 1) (2 ^ 64 - 1) } }
        ensures later { self.old.faults ≤ self.new.faults }
    {
        self.faults = self.faults.saturating_add(1);
        HostError::Fault
    }

    /// The count, or a fault where there is none.
    fn answer(&mut self, count: Option<usize>) -> Result<usize, HostError>
        ensures ok { IfSome count (λ n. (result ≡ Ok n) × (self.new ≡ self.old)) }
        ensures fault { IfNone count (result ≡ Err HostError.Fault) }
        ensures counted { IfNone count
            (self.new ≡ record self.old { faults = min (self.old.faults + 1) (2 ^ 64 - 1) }) }
        ensures later { self.old.faults ≤ self.new.faults }
    {
        match count {
            Some(count) => Ok(count),
            None => Err(self.fault()),
        }
    }
}

impl<R: Files + Drop, O: Print + Drop, E: Print + Drop> Host for FileHost<R, O, E> {
    ghost seen = { λ h. silent (is_some h.reading) (is_some h.creating) };

    ghost faults = { λ h. h.faults };

    fn start(&mut self, name: &Name) -> Result<(), HostError> {
        self.reading = path_of(name).and_then(|path| fs::open(&self.files, path).ok());
        if self.reading.is_none() {
            return Err(self.fault());
        }
        Ok(())
    }

    fn read(&mut self, buf: &mut [u8]) -> Result<usize, HostError> {
        let Some(file) = &mut self.reading else {
            unreachable!()
        };
        match file.read(buf) {
            Ok(count) => Ok(count),
            Err(_) => Err(self.fault()),
        }
    }

    fn create(&mut self, name: &Name) -> Result<(), HostError> {
        self.creating = path_of(name).and_then(|path| fs::create(&self.files, path).ok());
        if self.creating.is_none() {
            return Err(self.fault());
        }
        Ok(())
    }

    fn write(&mut self, to: Channel, part: &[u8]) -> Result<usize, HostError> {
        match to {
            Channel::Out => {
                let count = write_stream(&self.out, part);
                self.answer(count)
            }
            Channel::Err => {
                let count = write_stream(&self.err, part);
                self.answer(count)
            }
            Channel::File => {
                let count = write_file(&mut self.creating, part);
                self.answer(count)
            }
        }
    }
}

/// The name as a path, if it is text.
fn path_of(name: &Name) -> Option<&str> {
    str::from_utf8(name.bytes()).ok()
}

/// Writes some of the part, and answers how much.
fn write_stream<P: Print>(stream: &P, part: &[u8]) -> Option<usize>
    ensures { IfSome result (λ n. TakesSome n part.now) }
{
    match stream.write_some(part) {
        Ok(count) if part.is_empty() || count > 0 => Some(count),
        _ => None,
    }
}

/// Writes some of the part to the file that was created, and answers how much.
fn write_file<F: Write>(file: &mut Option<F>, part: &[u8]) -> Option<usize>
    ensures some { IfSome result (λ n. TakesSome n part.now) }
    ensures same { is_some file.new ≡ is_some file.old }
{
    match file.as_mut()?.write(part) {
        Ok(count) if part.is_empty() || count > 0 => Some(count),
        _ => None,
    }
}
