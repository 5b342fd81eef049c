//! What the names and expressions of an architecture mean: what declared objects begin with, and what is assigned to
//! what.

use crate::out::Out;
use crate::texts::bytes_of;
use crate::trouble::Trouble;
use crate::units::{design_with, units_of};
use crate::values::push_value;
use std::alloc::Global;
use vhdl_units::{
    ResolvedArchitecture, ResolvedConcurrentAssignment, ResolvedConcurrentBody,
    ResolvedDeclaration, ResolvedElement, ResolvedObjects, ResolvedUnit, Units,
};

fn push_objects(out: &mut Out, objects: &ResolvedObjects) {
    for declared in objects.declared.as_slice() {
        out.show(declared.number);
        out.put(":");
    }
    if let Some(initial) = &objects.initial {
        push_value(out, initial);
    }
    out.put(";");
}

fn push_element(out: &mut Out, element: &ResolvedElement) {
    push_value(out, &element.value);
    if let Some(after) = &element.after {
        out.put("@");
        push_value(out, after);
    }
}

fn push_assignment(out: &mut Out, assignment: &ResolvedConcurrentAssignment) {
    push_value(out, &assignment.target);
    out.put("<=");
    for element in assignment.waveform.as_slice() {
        push_element(out, element);
    }
    if let Some(condition) = &assignment.condition {
        out.put(" if ");
        push_value(out, condition);
    }
    out.put(";");
}

fn push_architecture(out: &mut Out, architecture: &ResolvedArchitecture) {
    for declaration in architecture.declarations.as_slice() {
        if let ResolvedDeclaration::Objects(objects) = declaration {
            push_objects(out, objects);
        }
    }
    for statement in architecture.statements.as_slice() {
        if let ResolvedConcurrentBody::Assignment(assignment) = &statement.body {
            push_assignment(out, assignment);
        }
    }
}

fn push_meanings(out: &mut Out, units: &Units) {
    for unit in units.units.as_slice() {
        if let ResolvedUnit::Architecture(architecture) = unit {
            push_architecture(out, architecture);
        }
    }
}

/// What an architecture of this text means.
pub fn meaning_of(alloc: Global, given: &str) -> Result<String, Trouble> {
    let body = bytes_of(alloc, given)?;
    let text = design_with(alloc, body.as_slice())?;
    let units = units_of(alloc, text.as_slice())?;
    let mut out = Out::new(alloc);
    push_meanings(&mut out, &units);
    Ok(out.finish()?)
}
