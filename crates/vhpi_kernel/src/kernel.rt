ghost use Rattle.std.specs.Prelude.{◌≡◌, ◌≤◌, ◌<◌, ℕ, ◌-◌, ◌^◌, [], ◌∷◌, ◌++◌, OnOk, OnErr, IfOk, IsErr, true, false, Some, None, length};
ghost use Rattle.sim_design.specs.Design.{IsSound, IsNumbered};
ghost use Rattle.sim_journal.specs.declared.Entry.TheVariants as entries;
ghost use Rattle.vhpi_kernel.specs.State.{State, Next, Update, events, table, driving_value, all_ran};
ghost use Rattle.vhpi_kernel.specs.Cycle.{moved_to, initialization};
ghost use Rattle.vhpi_kernel.specs.Kernel.{time_entry};
ghost use Rattle.vhpi_kernel.specs.Run.{end_at};
ghost use Rattle.vhpi_kernel.specs.Simulation.{Simulation, first_simulation, IsOfSameRun};
ghost use Rattle.vhpi_kernel.specs.Advance.{Advances};

use crate::index::index_drivers;
use crate::signals::{default_values, first_waves, next_time};
use crate::steps::{computed_values, run_processes, update_signals};
use crate::{NoMemory, Plan, Step};
use sim_design::Design;
use sim_journal::{End, Entry};
use sim_waves::Wave;
use std::alloc::Global;
use std::marker::Model;

// The time now in femtoseconds, how many delta cycles there were at it, and the cycle's number.
#[derive(Clone, Copy, Drop)]
struct Clock {
    now: u64,
    delta: u32,
    cycle: u32,
}

/// A run of a design under way. It is seen as a `Simulation`.
#[derive(Drop)]
pub struct Kernel {
    alloc: Global,
    design: Design,
    plan: Plan,
    clock: Clock,
    values: Vec<i64>,
    waves: Vec<Wave>,
    // The driver of each net.
    index: Vec<Option<u32>>,
    // Room for which drivers are active in a cycle, and for the new values.
    active: Vec<bool>,
    settled: Vec<i64>,
    journal: Vec<Entry>,
    is_begun: bool,
    ended: Option<End>,
    failed: bool,
}

impl Model for Kernel {
    ghost use Rattle.vhpi_kernel.specs.Simulation.{Simulation};
    ghost use Rattle.vhpi_kernel.specs.Kernel.{tasks_left, IsReady};

    ghost Value = { Simulation };

    ghost view = { λ k. record {
      design = k.design;
      plan = k.plan;
      state = record { now = k.clock.now; delta = k.clock.delta; cycle = k.clock.cycle; values = k.values.items; waves = k.waves.items };
      journal = k.journal.items;
      tasks = tasks_left k.is_begun;
      ended = k.ended;
      failed = k.failed;
    } };

    ghost invariant = { λ k. IsReady k.design k.clock.now k.clock.delta k.clock.cycle k.values.items k.waves.items k.index.items k.is_begun };
}

impl Kernel {
    /// Begins a run of a design: nothing is done yet. The design holds what elaboration promises of
    /// it.
    pub fn start(alloc: Global, design: Design, plan: Plan) -> Result<Kernel, NoMemory>
        requires sound { IsSound design }
        requires numbered { IsNumbered design }
        ensures { IfOk result (λ k. k ≡ first_simulation design plan) }
    {
        let index = index_drivers(alloc, design.nets.len(), design.processes.as_slice())?;
        let values = default_values(alloc, design.nets.as_slice())?;
        let waves = first_waves(alloc, &design)?;
        Ok(Kernel {
            alloc,
            design,
            plan,
            clock: Clock {
                now: 0,
                delta: 0,
                cycle: 0,
            },
            values,
            waves,
            index,
            active: Vec::new(alloc),
            settled: Vec::new(alloc),
            journal: Vec::new(alloc),
            is_begun: false,
            ended: None,
            failed: false,
        })
    }

    /// Makes the next section of the run: the initialization, or a simulation cycle. Between two of
    /// them it ends the run where an end applies (14.7.5); a run that has ended stays so. After want
    /// of memory every later call answers the same, and nothing is said of what it has done. Whatever
    /// it answers, the design and the plan stay the same.
    pub fn advance(&mut self) -> Result<Step, NoMemory>
        ensures ok { IfOk result (λ s. Advances s self.old self.new) }
        ensures kept { IsOfSameRun self.old self.new }
        ensures failed { OnErr result (self.new.failed ≡ true) }
        ensures sticky { self.old.failed ≡ true → IsErr result }
    {
        if self.failed {
            return Err(NoMemory);
        }
        match self.step() {
            Ok(step) => Ok(step),
            Err(error) => {
                self.failed = true;
                Err(error)
            }
        }
    }

    /// The design of the run.
    pub fn design(&self) -> &Design
        ensures { result.now ≡ self.now.design }
    {
        &self.design
    }

    /// Hands out the entries that were made since the last drain.
    pub fn drain(&mut self) -> Vec<Entry>
        ensures entries { result.items ≡ self.old.journal }
        ensures rest { self.new ≡ record self.old { journal = [] } }
    {
        std::mem::replace(&mut self.journal, Vec::new(self.alloc))
    }

    // The next time, in femtoseconds.
    fn next(&self) -> Option<u64>
        ensures { result ≡ Next self.now.state }
    {
        next_time(self.waves.as_slice())
    }

    // The initialization: the initial values of all nets are computed, and each process runs to
    // its wait.
    fn initialize(&mut self) -> Result<(), NoMemory>
        requires { self.old.tasks ≡ initialization }
        ensures done { OnOk result (self.new ≡ record self.old { state = record self.old.state { values = table (length self.old.design.nets) (driving_value self.old.design self.old.state.waves); waves = all_ran self.old.state.now self.old.design.processes self.old.state.waves }; tasks = [] }) }
        ensures kept { IsOfSameRun self.old self.new }
    {
        self.values = computed_values(
            self.alloc,
            &self.design,
            self.index.as_slice(),
            self.waves.as_slice(),
        )?;
        run_processes(
            self.alloc,
            self.clock.now,
            &self.design,
            self.index.as_slice(),
            self.waves.as_mut_slice(),
        )?;
        self.is_begun = true;
        Ok(())
    }

    // Time goes on to `next`.
    fn start_cycle(&mut self, next: u64) -> Result<(), NoMemory>
        requires between { self.old.tasks ≡ [] }
        requires cycle { self.old.state.cycle < 2 ^ 32 - 1 }
        ensures moved { OnOk result (self.new ≡ record self.old { state = moved_to next self.old.state; journal = self.old.journal ++ time_entry (moved_to next self.old.state) ∷ [] }) }
        ensures kept { IsOfSameRun self.old self.new }
    {
        let Clock { now, delta, cycle } = self.clock;
        let clock = Clock {
            now: next,
            delta: if next == now { delta + 1 } else { 0 },
            cycle: cycle + 1,
        };
        self.journal.push(Entry::Time {
            now: clock.now,
            delta: clock.delta,
            cycle: clock.cycle,
        })?;
        self.clock = clock;
        Ok(())
    }

    // Drivers become active, and nets are updated.
    fn update(&mut self) -> Result<(), NoMemory>
        ensures updated { OnOk result (self.new ≡ record self.old { state = Update self.old.design self.old.state; journal = self.old.journal ++ events (length self.old.design.nets) self.old.state.values (Update self.old.design self.old.state).values }) }
        ensures kept { IsOfSameRun self.old self.new }
    {
        update_signals(
            self.clock.now,
            &self.design,
            self.index.as_slice(),
            self.waves.as_mut_slice(),
            &mut self.active,
            self.values.as_slice(),
            &mut self.settled,
            &mut self.journal,
        )?;
        std::mem::swap(&mut self.values, &mut self.settled);
        Ok(())
    }

    // A cycle: time goes on, and signals are updated.
    fn run_cycle(&mut self, next: u64) -> Result<Step, NoMemory>
        requires running { self.old.ended ≡ None }
        requires between { self.old.tasks ≡ [] }
        requires next { Next self.old.state ≡ Some next }
        requires limit { self.old.state.cycle < self.old.plan.limit }
        ensures ok { IfOk result (λ s. Advances s self.old self.new) }
        ensures kept { IsOfSameRun self.old self.new }
    {
        // Read for its range: the cycle's number stays below it.
        let _limit = self.plan.limit;
        self.start_cycle(next)?;
        self.update()?;
        Ok(Step::CycleEnd)
    }

    // The run ends.
    fn close(&mut self, end: End) -> Result<Step, NoMemory>
        requires running { self.old.ended ≡ None }
        requires between { self.old.tasks ≡ [] }
        requires applies { end_at self.old.plan self.old.state ≡ Some end }
        ensures ok { IfOk result (λ s. Advances s self.old self.new) }
        ensures kept { IsOfSameRun self.old self.new }
    {
        self.journal.push(Entry::Ended(end))?;
        self.ended = Some(end);
        Ok(Step::Ended(end))
    }

    // What `advance` does, where there was no want of memory before.
    fn step(&mut self) -> Result<Step, NoMemory>
        ensures ok { IfOk result (λ s. Advances s self.old self.new) }
        ensures kept { IsOfSameRun self.old self.new }
    {
        if let Some(end) = self.ended {
            return Ok(Step::Ended(end));
        }
        if !self.is_begun {
            self.initialize()?;
            return Ok(Step::CycleEnd);
        }
        let Clock { now, cycle, .. } = self.clock;
        match self.next() {
            None => self.close(End::Quiet { now, cycle }),
            Some(_) if self.plan.limit <= cycle => self.close(End::CycleLimit { now, cycle }),
            Some(next) => self.run_cycle(next),
        }
    }
}
