// The edits of a list of pending transactions that a signal assignment makes.
ghost use Rattle.std.specs.Prelude.{◌≡◌, ◌-◌, ◌≤◌, ◌<◌, ◌+◌, ℕ, List, ◌++◌, ◌∷◌, length, take, drop, IsTrue, true, false, OnOk, OnErr, slice_index_or};
ghost use Rattle.std.specs.List.{list_all};
ghost use Rattle.sim_waves.specs.Waveform.{is_rising, marked, earlier, assigned, has_value_of, is_before, is_from, without, IsWithinFirst};
ghost use Rattle.vhpi_values.specs.declared.driving.Transaction.{Transaction};

use crate::{DelayMode, Transaction};
use std::alloc::AllocError;

// How many of the pending transactions come before `time`, counted from the last one down.
fn count_earlier(pending: &[Transaction], time: u64) -> usize
    requires { IsTrue (is_rising pending.now) }
    ensures within { result ≤ length pending.now }
    ensures before { list_all (is_before time) (take result pending.now) ≡ true }
    ensures after { list_all (is_from time) (drop result pending.now) ≡ true }
{
    let mut count = pending.len();
    while count > 0 && pending[count - 1].time >= time {
        count -= 1;
    }
    count
}

// The place from which on all pending transactions have the value of `next`.
fn run_before(pending: &[Transaction], next: Transaction) -> usize
    ensures within { result ≤ length pending.now }
    ensures equal { list_all (has_value_of next) (drop result pending.now) ≡ true }
    ensures stop { 0 < result → has_value_of next (slice_index_or pending.now (result - 1) next) ≡ false }
{
    let mut place = pending.len();
    while place > 0 && pending[place - 1].value == next.value {
        place -= 1;
    }
    place
}

// The places from and before which inertial delay deletes: what stays are the transactions before
// the limit, and those at the end that lead up to the new value without a change.
fn unmarked_range(pending: &[Transaction], limit: u64, first: Transaction) -> (usize, usize)
    requires { IsTrue (is_rising pending.now) }
    ensures order { result.0 ≤ result.1 }
    ensures within { result.1 ≤ length pending.now }
    ensures marked { (ns : List Transaction) → marked limit pending.now (first ∷ ns) ≡ take result.0 pending.now ++ drop result.1 pending.now }
{
    let from = count_earlier(pending, limit);
    let (_, rest) = pending.split_at(from);
    (from, from + run_before(rest, first))
}

// Takes out the transactions from place `from` to before place `to`.
pub(crate) fn remove_range(items: &mut Vec<Transaction>, from: usize, to: usize)
    requires order { from ≤ to }
    requires within { to ≤ length items.old.items }
    ensures { items.new.items ≡ take from items.old.items ++ drop to items.old.items }
{
    items.drain(from..to);
}

// What an assignment deletes: the places of the transactions that inertial delay deletes, and the
// place from which all are deleted for the new ones.
#[derive(Clone, Copy)]
struct Cuts {
    from: usize,
    to: usize,
    kept: usize,
}

fn plan_cuts(pending: &[Transaction], mode: DelayMode, reject: u64, first: Transaction) -> Cuts
    requires rising { IsTrue (is_rising pending.now) }
    requires reject { reject ≤ first.time }
    ensures order { result.from ≤ result.to }
    ensures within { result.to ≤ result.kept }
    ensures kept { result.kept ≤ length pending.now }
    ensures earlier { list_all (is_before first.time) (take result.kept pending.now) ≡ true }
    ensures assigned { (ns : List Transaction) → assigned mode reject pending.now (first ∷ ns) ≡ without result.from result.to (take result.kept pending.now ++ first ∷ ns) }
{
    let kept = count_earlier(pending, first.time);
    let (from, to) = match mode {
        DelayMode::Transport => (kept, kept),
        DelayMode::Inertial => unmarked_range(&pending[..kept], first.time - reject, first),
    };
    Cuts { from, to, kept }
}

/// Edits the transactions from place `done` on as a signal assignment does (10.5.2.2).
pub(crate) fn assign_behind(
    items: &mut Vec<Transaction>,
    done: usize,
    mode: DelayMode,
    reject: u64,
    new: &[Transaction],
) -> Result<(), AllocError>
    requires done { done ≤ length items.old.items }
    requires rising { IsTrue (is_rising (drop done items.old.items)) }
    requires some { 0 < length new.now }
    requires new { IsTrue (is_rising new.now) }
    requires reject { IsWithinFirst reject new.now }
    ensures done { done ≤ length items.new.items }
    ensures rising { IsTrue (is_rising (drop done items.new.items)) }
    ensures ok { OnOk result (drop done items.new.items ≡ assigned mode reject (drop done items.old.items) new.now) }
    ensures err { OnErr result (items.new.items ≡ items.old.items) }
{
    let before = items.len();
    let (_, pending) = items.as_slice().split_at(done);
    let cuts = plan_cuts(pending, mode, reject, new[0]);
    items.extend_from_slice(new)?;
    remove_range(items, done + cuts.kept, before);
    remove_range(items, done + cuts.from, done + cuts.to);
    Ok(())
}
