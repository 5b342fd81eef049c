//! The designs that texts stand for: `top(a) s 0:1@2000000,` is the instance, its nets, and for each process the
//! number of its target and its waveform.

use crate::out::Out;
use crate::texts::bytes_of;
use crate::trouble::Trouble;
use crate::units::tree_of;
use first_form::{FormError, design_of_form};
use sim_design::{Design, Instance, Net, Process};
use sim_session::{SessionFault, read_text};
use std::alloc::{AllocError, Global};
use vhdl_tokens::TEXT_LIMIT;

fn push_instance(out: &mut Out, instance: &Instance) {
    out.bytes(instance.name.as_slice());
    out.put("(");
    out.bytes(instance.architecture.as_slice());
    out.put(")");
}

fn push_net(out: &mut Out, net: &Net) {
    out.put(" ");
    out.bytes(net.name.as_slice());
}

fn push_process(out: &mut Out, process: &Process) {
    out.put(" ");
    out.show(process.target);
    out.put(":");
    for element in process.waveform.as_slice() {
        out.show(element.value);
        out.put("@");
        out.show(element.delay);
        out.put(",");
    }
}

fn shown(alloc: Global, design: &Design) -> Result<String, AllocError> {
    let mut out = Out::new(alloc);
    for instance in design.instances.as_slice() {
        push_instance(&mut out, instance);
    }
    for net in design.nets.as_slice() {
        push_net(&mut out, net);
    }
    for process in design.processes.as_slice() {
        push_process(&mut out, process);
    }
    out.finish()
}

/// The design of a text that is run.
pub fn design_of_text(alloc: Global, given: &str) -> Result<String, Trouble> {
    let text = bytes_of(alloc, given)?;
    if text.len() > TEXT_LIMIT {
        return Err(Trouble::Malformed);
    }
    match read_text(alloc, text.as_slice()) {
        Ok(design) => Ok(shown(alloc, &design)?),
        Err(SessionFault::NoMemory) => Err(Trouble::NoMemory),
        Err(_) => Err(Trouble::Malformed),
    }
}

/// The design that the syntax tree of a text stands for, or `NotBuilt`.
pub fn form_of_text(alloc: Global, given: &str) -> Result<String, Trouble> {
    let text = bytes_of(alloc, given)?;
    let tree = tree_of(alloc, text.as_slice())?;
    match design_of_form(alloc, text.as_slice(), &tree) {
        Ok(design) => Ok(shown(alloc, &design)?),
        Err(FormError::NotBuilt) => Ok(String::from_str(alloc, "NotBuilt")?),
        Err(FormError::NoMemory) => Err(Trouble::NoMemory),
    }
}
