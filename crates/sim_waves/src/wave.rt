ghost use Rattle.std.specs.Prelude.{◌≡◌, ◌<◌, ◌≤◌, length, [], IsTrue, OnOk, OnErr};
ghost use Rattle.sim_waves.specs.Waveform.{Waveform, Assign, is_active, at_time, first_time, is_rising, IsWithinFirst};

use crate::edits::{assign_behind, remove_range};
use crate::{DelayMode, NoMemory, Transaction};
use std::marker::Model;

/// The projected output waveform of one element of a driver, with its current value. It is seen as
/// a `Waveform`; the times of what is pending ascend strictly.
#[derive(Debug, Drop)]
pub struct Wave {
    current: Transaction,
    items: Vec<Transaction>,
    // How many of the items have had their time: what is pending begins behind them.
    done: usize,
}

impl Model for Wave {
    ghost use Rattle.std.specs.Prelude.{drop, length, ◌≤◌, IsTrue};
    ghost use Rattle.sim_waves.specs.Waveform.{Waveform, is_rising};

    ghost Value = { Waveform };

    ghost view = { λ w. record { current = w.current.value; pending = drop w.done w.items.items } };

    ghost invariant = { λ w. (w.done ≤ length w.items.items) × IsTrue (is_rising (drop w.done w.items.items)) };
}

impl Wave {
    /// A waveform of this current value with nothing pending.
    pub fn new(alloc: std::alloc::Global, value: i64) -> Wave
        ensures { result ≡ record { current = value; pending = [] } }
    {
        Wave {
            current: Transaction { value, time: 0 },
            items: Vec::new(alloc),
            done: 0,
        }
    }

    /// The value that the driver has now.
    pub fn current(&self) -> i64
        ensures { result ≡ self.now.current }
    {
        self.current.value
    }

    /// The transactions that are still to come, by time.
    pub fn pending(&self) -> &[Transaction]
        ensures { result.now ≡ self.now.pending }
    {
        let (_, pending) = self.items.as_slice().split_at(self.done);
        pending
    }

    /// The time of the next transaction in femtoseconds, or `None` where nothing is pending.
    pub fn next_time(&self) -> Option<u64>
        ensures { result ≡ first_time self.now.pending }
    {
        match self.pending() {
            [] => None,
            [next, ..] => Some(next.time),
        }
    }

    /// Makes the next transaction the current value where its time is `now`, and says whether it
    /// is: the driver is then active in this cycle (14.7.3.1).
    pub fn activate(&mut self, now: u64) -> bool
        ensures active { result ≡ is_active now self.old }
        ensures changed { self.new ≡ at_time now self.old }
    {
        match self.items.get(self.done) {
            Some(next) if next.time == now => {
                self.current = *next;
                self.done += 1;
                true
            }
            _ => false,
        }
    }

    /// Edits what is pending as a signal assignment does (10.5.2.2). `new` has at least one
    /// transaction, in strictly ascending times; the rejection limit `reject` is a span of time in
    /// femtoseconds, at most the first of these times, and counts with inertial delay alone. Where
    /// it fails, nothing is changed.
    pub fn assign(
        &mut self,
        mode: DelayMode,
        reject: u64,
        new: &[Transaction],
    ) -> Result<(), NoMemory>
        requires some { 0 < length new.now }
        requires rising { IsTrue (is_rising new.now) }
        requires reject { IsWithinFirst reject new.now }
        ensures ok { OnOk result (self.new ≡ Assign mode reject new.now self.old) }
        ensures err { OnErr result (self.new ≡ self.old) }
    {
        self.forget_done();
        assign_behind(&mut self.items, self.done, mode, reject, new)?;
        Ok(())
    }

    // Frees the place of the transactions that have had their time, once they are half of all, so
    // that a waveform takes no more room than what is pending, at a cost that is spread evenly.
    fn forget_done(&mut self)
        ensures { self.new ≡ self.old }
    {
        if self.done > 0 && self.done >= self.items.len() - self.done {
            remove_range(&mut self.items, 0, self.done);
            self.done = 0;
        }
    }
}
