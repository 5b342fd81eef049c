ghost use Rattle.std.specs.Prelude.{◌≡◌, ℕ, ◌<◌, ◌≤◌, ◌↔◌, [], length, take, ⊤, IfOk, OnOk, OnErr, IfSome, IsTrue};
ghost use Rattle.sim_host.specs.Host.{Seen, FailsToCreate, FailsToStart, HasCause, MayWrite, Reads, TakesSome, TextHas, created, started, wrote};

use crate::channels::Channel;
use crate::errors::HostError;
use crate::names::Name;

/// The outside: files that are read one at a time, and the channels that are written.
///
/// `seen` is what the host shows of it. A part that the host does not tell is `None` there, and no clause then
/// speaks of it. `faults` counts the faults, and stands still at 2^64 - 1.
pub trait Host {
    ghost seen: { Self → Seen };

    ghost faults: { Self → ℕ };

    /// Begins the named file, all of which is then left to be read. A missing file is a fault.
    /// After a failure no file is begun.
    fn start(&mut self, name: &Name) -> Result<(), HostError>
        ensures ok { OnOk result (seen self.new ≡ started name.now (seen self.old)) }
        ensures found { OnOk result (TextHas name.now (seen self.old) (λ _. ⊤)) }
        ensures err { OnErr result (FailsToStart name.now result (seen self.old) (seen self.new)) }
        ensures cause { HasCause (faults self.old) (faults self.new) result };

    /// Gives the first of the bytes that are left of the begun file, at most `buf.len()` of them, and takes
    /// them off. Answers how many; 0 for a `buf` that is not empty is the end of the file.
    fn read(&mut self, buf: &mut [u8]) -> Result<usize, HostError>
        requires { IsTrue (seen self.old).is_begun }
        ensures bound { IfOk result (λ n. n ≤ length buf.old) }
        ensures ok { IfOk result (λ n. Reads (take n buf.new) (seen self.old) (seen self.new)) }
        ensures end { 0 < length buf.old
            → IfOk result (λ n. IfSome (seen self.old).left (λ left. (n ≡ 0) ↔ (left ≡ []))) }
        ensures err { OnErr result (seen self.new ≡ seen self.old) }
        ensures cause { HasCause (faults self.old) (faults self.new) result };

    /// Begins the channel File anew, under this name. After a failure it is not begun, and holds what it held.
    fn create(&mut self, name: &Name) -> Result<(), HostError>
        ensures ok { OnOk result (seen self.new ≡ created name.now (seen self.old)) }
        ensures err { OnErr result (FailsToCreate name.now result (seen self.old) (seen self.new)) }
        ensures cause { HasCause (faults self.old) (faults self.new) result };

    /// Adds the first bytes of `part` to the channel, at least one where `part` is not empty. Answers how many.
    fn write(&mut self, to: Channel, part: &[u8]) -> Result<usize, HostError>
        requires { MayWrite to (seen self.old) }
        ensures some { IfOk result (λ n. TakesSome n part.now) }
        ensures ok { IfOk result (λ n. seen self.new ≡ wrote to (take n part.now) (seen self.old)) }
        ensures err { OnErr result (seen self.new ≡ seen self.old) }
        ensures cause { HasCause (faults self.old) (faults self.new) result };
}
