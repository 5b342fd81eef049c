//! Units as texts. `14:s/2` is a declaration by its number, its name and its line, `Bit#1` a type by the number of
//! its declaration, with `~` where it is resolved and `[]` where it has bounds. A statement begins with its line.

use crate::out::Out;
use crate::values::{push_choices, push_reference, push_value};
use vhdl_units::{
    Declared, Mark, RangeValue, ResolvedActual, ResolvedArchitecture, ResolvedArm,
    ResolvedAssertion, ResolvedAssignment, ResolvedAssociation, ResolvedBody, ResolvedCase,
    ResolvedConcurrent, ResolvedConcurrentAssignment, ResolvedConcurrentBody, ResolvedConstraint,
    ResolvedDeclaration, ResolvedDelay, ResolvedElement, ResolvedElsif, ResolvedEntity, ResolvedIf,
    ResolvedInstance, ResolvedJump, ResolvedLoop, ResolvedObjects, ResolvedProcess, ResolvedReport,
    ResolvedScheme, ResolvedSensitivity, ResolvedStatement, ResolvedSubtype, ResolvedType,
    ResolvedUnit, ResolvedWait, Units, Value,
};

// ---- parts

fn push_declared(out: &mut Out, declared: &Declared) {
    let number = declared.number;
    out.show(number);
    out.put(":");
    out.bytes(declared.name.as_slice());
    let line = declared.line;
    out.put("/");
    out.show(line);
}

fn push_label(out: &mut Out, label: &Option<Declared>) {
    if let Some(declared) = label {
        push_declared(out, declared);
        out.put(" ");
    }
}

// A word and a value, where there is one.
fn push_optional(out: &mut Out, word: &str, value: &Option<Value>) {
    if let Some(value) = value {
        out.put(word);
        push_value(out, value);
    }
}

fn push_values(out: &mut Out, values: &[Value]) {
    for value in values {
        push_value(out, value);
        out.put(",");
    }
}

fn push_text(out: &mut Out, text: &[u8]) {
    out.put("\"");
    out.bytes(text);
    out.put("\"");
}

fn push_range(out: &mut Out, range: &RangeValue) {
    match range {
        RangeValue::Unknown => out.put("?"),
        RangeValue::Bounds(left, direction, right) => {
            push_value(out, left);
            out.put(" ");
            out.show(direction);
            out.put(" ");
            push_value(out, right);
        }
        RangeValue::Of(reference) => {
            push_reference(out, reference);
            out.put("'Range");
        }
    }
}

// ---- declarations

fn push_mark(out: &mut Out, mark: &Option<Mark>) {
    match mark {
        None => out.put("?"),
        Some(mark) => {
            let base = mark.base;
            let number = mark.number;
            out.show(base);
            out.put("#");
            out.show(number);
            if mark.resolved {
                out.put("~");
            }
            if mark.bounded {
                out.put("[]");
            }
        }
    }
}

fn push_subtype(out: &mut Out, subtype: &ResolvedSubtype) {
    out.put(" of ");
    push_mark(out, &subtype.mark);
    match &subtype.constraint {
        None => {}
        Some(ResolvedConstraint::Range(range)) => {
            out.put(" range ");
            push_range(out, range);
        }
        Some(ResolvedConstraint::Index(range)) => {
            out.put("(");
            push_range(out, range);
            out.put(")");
        }
    }
}

fn push_objects(out: &mut Out, objects: &ResolvedObjects) {
    let class = objects.class;
    out.show(class);
    for declared in objects.declared.as_slice() {
        out.put(" ");
        push_declared(out, declared);
    }
    push_subtype(out, &objects.subtype);
    push_optional(out, ":=", &objects.initial);
    out.put(";");
}

fn push_list(out: &mut Out, list: &[ResolvedObjects]) {
    out.put("(");
    for objects in list {
        push_objects(out, objects);
    }
    out.put(")");
}

fn push_type(out: &mut Out, declaration: &ResolvedType) {
    out.put("type ");
    push_declared(out, &declaration.declared);
    out.put("(");
    for literal in declaration.literals.as_slice() {
        out.bytes(literal.as_slice());
        out.put(",");
    }
    out.put(");");
}

fn push_declaration(out: &mut Out, declaration: &ResolvedDeclaration) {
    match declaration {
        ResolvedDeclaration::Type(declaration) => push_type(out, declaration),
        ResolvedDeclaration::Subtype(declared, subtype) => {
            out.put("subtype ");
            push_declared(out, declared);
            push_subtype(out, subtype);
            out.put(";");
        }
        ResolvedDeclaration::Objects(objects) => push_objects(out, objects),
        ResolvedDeclaration::Foreign(value) => {
            out.put("foreign ");
            push_value(out, value);
            out.put(";");
        }
    }
}

fn push_declarations(out: &mut Out, declarations: &[ResolvedDeclaration]) {
    for declaration in declarations {
        push_declaration(out, declaration);
    }
}

// ---- simple statements

fn push_wait(out: &mut Out, wait: &ResolvedWait) {
    out.put("wait");
    if !wait.on.as_slice().is_empty() {
        out.put(" on ");
        push_values(out, wait.on.as_slice());
    }
    push_optional(out, " until ", &wait.until);
    push_optional(out, " for ", &wait.time)
}

fn push_assertion(out: &mut Out, assertion: &ResolvedAssertion) {
    out.put("assert ");
    push_value(out, &assertion.condition);
    if let Some(text) = &assertion.text {
        out.put(" ");
        push_text(out, text.as_slice());
    }
    let severity = assertion.severity;
    out.put(" ");
    out.show(severity);
}

fn push_report(out: &mut Out, report: &ResolvedReport) {
    out.put("report ");
    push_text(out, report.text.as_slice());
    let severity = report.severity;
    out.put(" ");
    out.show(severity);
}

fn push_delay(out: &mut Out, delay: &ResolvedDelay) {
    match delay {
        ResolvedDelay::Inertial => {}
        ResolvedDelay::Reject(limit) => {
            out.put("reject ");
            push_value(out, limit);
            out.put(" ");
        }
        ResolvedDelay::Transport => out.put("transport "),
    }
}

fn push_waveform(out: &mut Out, waveform: &[ResolvedElement]) {
    for element in waveform {
        push_value(out, &element.value);
        push_optional(out, "@", &element.after);
        out.put(",");
    }
}

fn push_assignment(out: &mut Out, assignment: &ResolvedAssignment) {
    push_value(out, &assignment.target);
    out.put("<=");
    push_delay(out, &assignment.delay);
    push_waveform(out, assignment.waveform.as_slice())
}

fn push_jump(out: &mut Out, word: &str, jump: &ResolvedJump) {
    let loops = jump.loops;
    out.put(word);
    out.put(" ");
    out.show(loops);
    push_optional(out, " if ", &jump.condition)
}

fn push_scheme(out: &mut Out, scheme: &ResolvedScheme) {
    match scheme {
        ResolvedScheme::Forever => out.put("loop"),
        ResolvedScheme::While(condition) => {
            out.put("while ");
            push_value(out, condition);
        }
        ResolvedScheme::For(declared, base, range) => {
            out.put("for ");
            push_declared(out, declared);
            out.put(" ");
            out.show(base);
            out.put(" ");
            push_range(out, range);
        }
    }
}

// ---- statements

#[cycle(push)]
fn push_statements(out: &mut Out, statements: &[ResolvedStatement]) {
    out.put("{");
    for statement in statements {
        push_statement(out, statement);
    }
    out.put("}");
}

#[cycle(push)]
fn push_statement(out: &mut Out, statement: &ResolvedStatement) {
    let line = statement.line;
    out.show(line);
    out.put(" ");
    push_label(out, &statement.label);
    push_body(out, &statement.body);
    out.put(";");
}

#[cycle(push)]
fn push_body(out: &mut Out, body: &ResolvedBody) {
    match body {
        ResolvedBody::Wait(wait) => push_wait(out, wait),
        ResolvedBody::Assert(assertion) => push_assertion(out, assertion),
        ResolvedBody::Report(report) => push_report(out, report),
        ResolvedBody::Signal(assignment) => push_assignment(out, assignment),
        ResolvedBody::Variable(target, value) => {
            push_value(out, target);
            out.put(":=");
            push_value(out, value);
        }
        ResolvedBody::If(statement) => push_if(out, statement),
        ResolvedBody::Case(statement) => push_case(out, statement),
        ResolvedBody::Loop(statement) => push_loop(out, statement),
        ResolvedBody::Next(jump) => push_jump(out, "next", jump),
        ResolvedBody::Exit(jump) => push_jump(out, "exit", jump),
        ResolvedBody::Null => out.put("null"),
    }
}

#[cycle(push)]
fn push_if(out: &mut Out, statement: &ResolvedIf) {
    out.put("if ");
    push_value(out, &statement.condition);
    push_statements(out, statement.statements.as_slice());
    push_elsifs(out, statement.elsifs.as_slice());
    out.put(" else");
    push_statements(out, statement.otherwise.as_slice())
}

#[cycle(push)]
fn push_elsifs(out: &mut Out, elsifs: &[ResolvedElsif]) {
    for elsif in elsifs {
        out.put(" elsif ");
        push_value(out, &elsif.condition);
        push_statements(out, elsif.statements.as_slice());
    }
}

#[cycle(push)]
fn push_case(out: &mut Out, statement: &ResolvedCase) {
    out.put("case ");
    push_value(out, &statement.subject);
    push_arms(out, statement.arms.as_slice())
}

#[cycle(push)]
fn push_arms(out: &mut Out, arms: &[ResolvedArm]) {
    for arm in arms {
        out.put(" when ");
        push_choices(out, arm.choices.as_slice());
        push_statements(out, arm.statements.as_slice());
    }
}

#[cycle(push)]
fn push_loop(out: &mut Out, statement: &ResolvedLoop) {
    push_scheme(out, &statement.scheme);
    push_statements(out, statement.statements.as_slice())
}

// ---- concurrent statements

fn push_postponed(out: &mut Out, postponed: bool) {
    if postponed {
        out.put("postponed ");
    }
}

fn push_process(out: &mut Out, process: &ResolvedProcess) {
    push_postponed(out, process.postponed);
    out.put("process");
    match &process.sensitivity {
        ResolvedSensitivity::Unlisted => {}
        ResolvedSensitivity::All => out.put(" all"),
        ResolvedSensitivity::Names(names) => {
            out.put(" (");
            push_values(out, names.as_slice());
            out.put(")");
        }
    }
    out.put("{");
    push_declarations(out, process.declarations.as_slice());
    out.put("}");
    push_statements(out, process.statements.as_slice())
}

fn push_concurrent_assignment(out: &mut Out, assignment: &ResolvedConcurrentAssignment) {
    push_postponed(out, assignment.postponed);
    push_value(out, &assignment.target);
    out.put("<=");
    push_delay(out, &assignment.delay);
    push_waveform(out, assignment.waveform.as_slice());
    for alternative in assignment.alternatives.as_slice() {
        out.put(" if ");
        push_value(out, &alternative.condition);
        out.put(" else ");
        push_waveform(out, alternative.otherwise.as_slice());
    }
    push_optional(out, " if ", &assignment.condition)
}

fn push_number(out: &mut Out, number: Option<usize>) {
    match number {
        None => out.put("?"),
        Some(number) => {
            out.show(number);
        }
    }
}

fn push_associations(out: &mut Out, list: &[ResolvedAssociation]) {
    out.put("(");
    for association in list {
        push_number(out, association.formal.map(|formal| formal.number));
        out.put("=>");
        match &association.actual {
            ResolvedActual::Value(value) => push_value(out, value),
            ResolvedActual::Open => out.put("open"),
        }
        out.put(",");
    }
    out.put(")");
}

fn push_instance(out: &mut Out, instance: &ResolvedInstance) {
    out.put("entity ");
    push_number(out, instance.entity);
    if let Some(architecture) = &instance.architecture {
        out.put("(");
        out.bytes(architecture.as_slice());
        out.put(")");
    }
    push_associations(out, instance.generics.as_slice());
    push_associations(out, instance.ports.as_slice())
}

fn push_concurrent(out: &mut Out, statement: &ResolvedConcurrent) {
    let line = statement.line;
    out.show(line);
    out.put(" ");
    push_label(out, &statement.label);
    match &statement.body {
        ResolvedConcurrentBody::Process(process) => push_process(out, process),
        ResolvedConcurrentBody::Assignment(assignment) => {
            push_concurrent_assignment(out, assignment)
        }
        ResolvedConcurrentBody::Instance(instance) => push_instance(out, instance),
    }
    out.put(";");
}

// ---- units

/// What stands in an architecture.
pub fn push_contents(out: &mut Out, architecture: &ResolvedArchitecture) {
    push_declarations(out, architecture.declarations.as_slice());
    out.put("begin ");
    for statement in architecture.statements.as_slice() {
        push_concurrent(out, statement);
    }
}

fn push_entity(out: &mut Out, entity: &ResolvedEntity) {
    out.put("entity ");
    out.bytes(entity.name.as_slice());
    let line = entity.line;
    out.put("/");
    out.show(line);
    out.put(" ");
    push_list(out, entity.generics.as_slice());
    push_list(out, entity.ports.as_slice())
}

fn push_architecture(out: &mut Out, architecture: &ResolvedArchitecture) {
    out.put("architecture ");
    out.bytes(architecture.name.as_slice());
    let line = architecture.line;
    out.put("/");
    out.show(line);
    out.put(" of ");
    push_number(out, architecture.entity);
    out.put(" ");
    push_contents(out, architecture)
}

/// All units of a file.
pub fn push_units(out: &mut Out, units: &Units) {
    for unit in units.units.as_slice() {
        match unit {
            ResolvedUnit::Entity(entity) => push_entity(out, entity),
            ResolvedUnit::Architecture(architecture) => push_architecture(out, architecture),
        }
    }
}
