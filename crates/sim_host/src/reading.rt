ghost use Rattle.std.specs.Prelude.{◌≡◌, ℕ, ◌<◌, ◌≤◌, ◌-◌, ◌++◌, List, length, vec_len, IfOk, IfErr, IsTrue};
ghost use Rattle.sim_host.specs.declared.names.Asked.{Asked};
ghost use Rattle.sim_host.specs.Host.{Asks, HasReadCause, IsAtEnd, IsTooLong, IsWhole, OnlyReads, Reads, StopsReading, StopsTaking};

use crate::errors::ReadError;
use crate::hosts::Host;
use crate::names::Name;
use std::alloc::Global;

/// How many bytes are asked for at a time.
const CHUNK: usize = 4096;

/// Reads the whole of the named file, whatever pieces the host gives.
///
/// A file of more than `limit` bytes is `TooLong`, and one byte more than the limit is then read. The answer is
/// `Host` only at a fault of the host.
pub fn read_all<H: Host>(
    alloc: Global,
    host: &mut H,
    name: &Name,
    limit: usize,
) -> Result<Vec<u8>, ReadError>
    ensures whole { IfOk result (λ bytes.
        IsWhole name.now limit bytes.items (H.seen host.old) (H.seen host.new)) }
    ensures stopped { IfErr result (λ e.
        StopsReading e name.now limit (H.seen host.old) (H.seen host.new)) }

    // What the two clauses above say of the rest of the host.
    ensures asked { Asks (Asked.Start name.now) ReadError.NoMemory result
        (H.seen host.old).asked (H.seen host.new).asked }
    ensures only { OnlyReads (H.seen host.old) (H.seen host.new) }

    ensures cause { HasReadCause (H.faults host.old) (H.faults host.new) result }
{
    host.start(name)?;
    read_rest(alloc, host, limit)
}

/// Reads what is left of the begun file.
fn read_rest<H: Host>(alloc: Global, host: &mut H, limit: usize) -> Result<Vec<u8>, ReadError>
    requires { IsTrue (H.seen host.old).is_begun }
    ensures read { IfOk result (λ bytes. Reads bytes.items (H.seen host.old) (H.seen host.new)) }
    ensures within { IfOk result (λ bytes. vec_len bytes ≤ limit) }
    ensures end { IfOk result (λ _. IsAtEnd (H.seen host.new)) }
    ensures stopped { IfErr result (λ e. StopsTaking e limit (H.seen host.old) (H.seen host.new)) }
    ensures cause { HasReadCause (H.faults host.old) (H.faults host.new) result }
{
    let mut bytes = Vec::new(alloc);
    let mut chunk = [0; CHUNK];
    'pieces: while read_piece(host, &mut chunk, limit - bytes.len(), &mut bytes)? > 0 {}
    Ok(bytes)
}

/// Reads once, at most one byte more than `spare`, and adds what came to `bytes`.
fn read_piece<H: Host>(
    host: &mut H,
    chunk: &mut [u8],
    spare: usize,
    bytes: &mut Vec<u8>,
) -> Result<usize, ReadError>
    requires begun { IsTrue (H.seen host.old).is_begun }
    requires room { 0 < length chunk.old }
    ensures some { IfOk result (λ n. (part : List ℕ) × (length part ≡ n)
        × (bytes.new.items ≡ bytes.old.items ++ part)
        × Reads part (H.seen host.old) (H.seen host.new)) }
    ensures within { IfOk result (λ n. n ≤ spare) }
    ensures end { IfOk result (λ n. n ≡ 0 → IsAtEnd (H.seen host.new)) }
    ensures stopped { IfErr result (λ e. StopsTaking e spare (H.seen host.old) (H.seen host.new)) }
    ensures cause { HasReadCause (H.faults host.old) (H.faults host.new) result }
{
    let room = spare.min(chunk.len() - 1) + 1;
    let count = host.read(&mut chunk[..room])?;
    if count > spare {
        return Err(ReadError::TooLong);
    }
    bytes.extend_from_slice(&chunk[..count])?;
    Ok(count)
}
