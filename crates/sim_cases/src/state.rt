//! What the steps of a file of cases change.

use crate::hosts::{empty_host, memory_came};
use crate::kinds::Kind;
use crate::regions::{Scope, scope_came, scope_step};
use crate::texts::number_of;
use crate::trouble::Trouble;
use crate::waves::{wave_came, wave_step};
use sim_host::MemoryHost;
use sim_waves::Wave;
use std::alloc::Global;

/// Nested regions, a waveform and a host in memory.
#[derive(Drop)]
pub struct State {
    scope: Scope,
    wave: Wave,
    host: MemoryHost,
}

impl State {
    /// The state in which a file of cases begins.
    pub fn new(alloc: Global) -> Result<State, Trouble> {
        Ok(State {
            scope: Scope::new(alloc)?,
            wave: Wave::new(alloc, 0),
            host: empty_host(alloc, 0)?,
        })
    }

    /// `begin CALL` begins a host that fails at this call. Whether it is that.
    fn host_step(&mut self, alloc: Global, written: &str) -> Result<bool, Trouble> {
        match written.strip_prefix("begin ") {
            Some(call) => {
                self.host = empty_host(alloc, number_of(call)? as u64)?;
                Ok(true)
            }
            None => Ok(false),
        }
    }

    /// Does a step. Whether it is one.
    pub fn step(&mut self, alloc: Global, kind: Kind, written: &str) -> Result<bool, Trouble> {
        match kind {
            Kind::Regions => scope_step(alloc, &mut self.scope, written),
            Kind::Waves => wave_step(alloc, &mut self.wave, written),
            Kind::Hosts => self.host_step(alloc, written),
            _ => Ok(false),
        }
    }

    /// What is asked of the state.
    pub fn came(&mut self, alloc: Global, kind: Kind, given: &str) -> Result<String, Trouble> {
        match kind {
            Kind::Regions => scope_came(alloc, &mut self.scope, given),
            Kind::Waves => wave_came(alloc, &mut self.wave, given),
            Kind::Hosts => memory_came(alloc, &mut self.host, given),
            _ => Err(Trouble::Malformed),
        }
    }
}
