ghost use Rattle.sim_host.specs.Host.{HasCause, MayWrite, Writes};

use crate::channels::Channel;
use crate::errors::HostError;
use crate::hosts::Host;

/// Adds all of `bytes` to the channel, in as many writes as the host needs.
///
/// A failure leaves a front of `bytes` written, and not all of them.
pub fn write_all<H: Host>(host: &mut H, to: Channel, bytes: &[u8]) -> Result<(), HostError>
    requires { MayWrite to (H.seen host.old) }
    ensures writes { Writes to bytes.now result (H.seen host.old) (H.seen host.new) }
    ensures cause { HasCause (H.faults host.old) (H.faults host.new) result }
{
    let mut done = 0;
    while done < bytes.len() {
        let (_, rest) = bytes.split_at(done);
        done += host.write(to, rest)?;
    }
    Ok(())
}
