//! Design units and concurrent statements, along a design file.

ghost use Rattle.std.specs.Prelude.{◌≡◌, IfOk, OnOk, map};
ghost use Rattle.std.specs.List.{flat_map, list_all};
ghost use Rattle.vhdl_names_checker.specs.After.{entity_number};
ghost use Rattle.vhdl_names_checker.specs.Progress.{walk};
ghost use Rattle.vhdl_names_scope.specs.Names.{word_in};
ghost use Rattle.vhdl_tokens.specs.Meaning.{span};
ghost use Rattle.vhdl_names.specs.Parts.{all_at, events_of};
ghost use Rattle.vhdl_names.specs.Units as spec;

use crate::declarations::{check_declarations, check_objects};
use crate::statements::{check_label, check_statements};
use sqlite_items::Items;
use std::alloc::AllocError;
use vhdl_names_checker::{Checker, entity_number};
use vhdl_names_resolving::{concurrent_resolved, instance_resolved, sensitivity_resolved, spelled};
use vhdl_names_rules::is_word;
use vhdl_names_scope::word;
use vhdl_tokens::Token;
use vhdl_tree::{
    Architecture, Concurrent, ConcurrentAssignment, ConcurrentBody, ContextClause, Declaration,
    DesignFile, DesignUnit, Entity, Generic, Instantiation, LibraryUnit, Port, Process,
    Sensitivity,
};
use vhdl_units::{
    Class, ResolvedArchitecture, ResolvedConcurrent, ResolvedConcurrentBody, ResolvedEntity,
    ResolvedObjects, ResolvedProcess, ResolvedSensitivity, ResolvedUnit,
};

// ---- processes

#[tactic(auto, unfolding(crate::specs::Units::is_listed))]
fn is_listed(sensitivity: &Sensitivity) -> bool
    ensures { result ≡ spec.is_listed sensitivity.now }
{
    match sensitivity {
        Sensitivity::Unlisted => false,
        Sensitivity::All | Sensitivity::Names(_) => true,
    }
}

#[tactic(auto, unfolding(crate::specs::Units::sensitivity_events, vhdl_names_checker::specs::Progress::walk))]
fn walk_sensitivity(checker: &mut Checker<'_>, sensitivity: &Sensitivity) -> Result<(), AllocError>
    ensures { OnOk result (checker.new ≡ walk (spec.sensitivity_events sensitivity.now) checker.old) }
{
    match sensitivity {
        Sensitivity::Names(names) => checker.sensitive(names.as_slice()),
        Sensitivity::Unlisted | Sensitivity::All => Ok(()),
    }
}

#[tactic(auto, unfolding(crate::specs::Units::of_sensitivity))]
fn check_sensitivity(
    checker: &mut Checker<'_>,
    sensitivity: &Sensitivity,
) -> Result<ResolvedSensitivity, AllocError>
    ensures walk { OnOk result (checker.new ≡ walk (spec.of_sensitivity sensitivity.now).events checker.old) }
    ensures meaning { IfOk result (λ v. v ≡ (spec.of_sensitivity sensitivity.now).at checker.old) }
{
    let resolved = sensitivity_resolved(
        checker.alloc(),
        checker.text(),
        checker.around(),
        sensitivity,
    )?;
    walk_sensitivity(checker, sensitivity).and(Ok(resolved))
}

fn check_process(
    checker: &mut Checker<'_>,
    label: &Option<Token>,
    process: &Process,
) -> Result<ResolvedProcess, AllocError>
    ensures walk { OnOk result (checker.new ≡ walk (spec.of_process label.now process.now).events checker.old) }
    ensures meaning { IfOk result (λ v. v ≡ (spec.of_process label.now process.now).at checker.old) }
{
    let sensitivity = check_sensitivity(checker, &process.sensitivity)?;
    checker.process(is_listed(&process.sensitivity))?;
    let declarations = check_declarations(checker, process.declarations.as_slice())?;
    let statements = check_statements(checker, process.statements.as_slice())?;
    checker.end_process(label, &process.end_name)?;
    Ok(ResolvedProcess {
        postponed: process.postponed,
        sensitivity,
        declarations,
        statements,
    })
}

// ---- concurrent statements

#[tactic(auto, unfolding(crate::specs::Units::of_assignment, vhdl_names_checker::specs::Progress::walk))]
fn check_assignment(
    checker: &mut Checker<'_>,
    statement: &ConcurrentAssignment,
) -> Result<ResolvedConcurrentBody, AllocError>
    ensures walk { OnOk result (checker.new ≡ walk (spec.of_assignment statement.now).events checker.old) }
    ensures meaning { IfOk result (λ v. v ≡ (spec.of_assignment statement.now).at checker.old) }
{
    let resolved = concurrent_resolved(
        checker.alloc(),
        checker.text(),
        checker.around(),
        statement,
    )?;
    checker
        .assigned(
            &statement.target,
            &statement.delay,
            statement.waveform.as_slice(),
            statement.alternatives.as_slice(),
            statement.condition.as_ref(),
        )
        .and(Ok(ResolvedConcurrentBody::Assignment(resolved)))
}

#[tactic(auto, unfolding(crate::specs::Units::of_instance, vhdl_names_checker::specs::Progress::walk))]
fn check_instance(
    checker: &mut Checker<'_>,
    instance: &Instantiation,
) -> Result<ResolvedConcurrentBody, AllocError>
    ensures walk { OnOk result (checker.new ≡ walk (spec.of_instance instance.now).events checker.old) }
    ensures meaning { IfOk result (λ v. v ≡ (spec.of_instance instance.now).at checker.old) }
{
    let resolved = instance_resolved(checker.alloc(), checker.text(), checker.around(), instance)?;
    checker
        .instance(instance)
        .and(Ok(ResolvedConcurrentBody::Instance(resolved)))
}

#[tactic(auto, unfolding(crate::specs::Units::process_body))]
fn check_process_body(
    checker: &mut Checker<'_>,
    label: &Option<Token>,
    process: &Process,
) -> Result<ResolvedConcurrentBody, AllocError>
    ensures walk { OnOk result (checker.new ≡ walk (spec.process_body (spec.of_process label.now process.now)).events checker.old) }
    ensures meaning { IfOk result (λ v. v ≡ (spec.process_body (spec.of_process label.now process.now)).at checker.old) }
{
    let process = check_process(checker, label, process)?;
    Ok(ResolvedConcurrentBody::Process(process))
}

#[tactic(auto, unfolding(crate::specs::Units::of_body))]
fn check_concurrent_body(
    checker: &mut Checker<'_>,
    label: &Option<Token>,
    body: &ConcurrentBody,
) -> Result<ResolvedConcurrentBody, AllocError>
    ensures walk { OnOk result (checker.new ≡ walk (spec.of_body label.now body.now).events checker.old) }
    ensures meaning { IfOk result (λ v. v ≡ (spec.of_body label.now body.now).at checker.old) }
{
    match body {
        ConcurrentBody::Process(process) => check_process_body(checker, label, process),
        ConcurrentBody::Assignment(statement) => check_assignment(checker, statement),
        ConcurrentBody::Instance(instance) => check_instance(checker, instance),
    }
}

#[tactic(auto, using(crate::proofs::Walks::walks), unfolding(crate::specs::Units::of_concurrent, crate::specs::Statements::of_label))]
fn check_concurrent(
    checker: &mut Checker<'_>,
    statement: &Concurrent,
) -> Result<ResolvedConcurrent, AllocError>
    ensures walk { OnOk result (checker.new ≡ walk (spec.of_concurrent statement.now).events checker.old) }
    ensures meaning { IfOk result (λ v. v ≡ (spec.of_concurrent statement.now).at checker.old) }
{
    let label = check_label(checker, &statement.label)?;
    let body = check_concurrent_body(checker, &statement.label, &statement.body)?;
    Ok(ResolvedConcurrent {
        line: statement.line,
        label,
        body,
    })
}

fn check_concurrent_statements(
    checker: &mut Checker<'_>,
    statements: &[Concurrent],
) -> Result<Items<ResolvedConcurrent>, AllocError>
    ensures walk { OnOk result (checker.new ≡ walk (events_of (map spec.of_concurrent statements.now)) checker.old) }
    ensures meaning { IfOk result (λ v. v ≡ all_at (map spec.of_concurrent statements.now) checker.old) }
{
    let mut resolved = Items::new(checker.alloc());
    for statement in statements {
        resolved.push(check_concurrent(checker, statement)?)?;
    }
    Ok(resolved)
}

// ---- entities

// A name as it is written.
fn spelling(checker: &Checker<'_>, token: &Token) -> Result<Items<u8>, AllocError>
    ensures { IfOk result (λ v. v ≡ span checker.now.text token.now) }
{
    spelled(checker.alloc(), checker.text(), token)
}

#[tactic(auto, unfolding(crate::specs::Units::of_generic))]
fn check_generic(
    checker: &mut Checker<'_>,
    generic: &Generic,
) -> Result<ResolvedObjects, AllocError>
    ensures walk { OnOk result (checker.new ≡ walk (spec.of_generic generic.now).events checker.old) }
    ensures meaning { IfOk result (λ v. v ≡ (spec.of_generic generic.now).at checker.old) }
{
    check_objects(
        checker,
        Class::Generic,
        generic.names.as_slice(),
        &generic.subtype,
        generic.default.as_ref(),
    )
}

fn check_generics(
    checker: &mut Checker<'_>,
    generics: &[Generic],
) -> Result<Items<ResolvedObjects>, AllocError>
    ensures walk { OnOk result (checker.new ≡ walk (events_of (map spec.of_generic generics.now)) checker.old) }
    ensures meaning { IfOk result (λ v. v ≡ all_at (map spec.of_generic generics.now) checker.old) }
{
    let mut resolved = Items::new(checker.alloc());
    for generic in generics {
        resolved.push(check_generic(checker, generic)?)?;
    }
    Ok(resolved)
}

#[tactic(auto, unfolding(crate::specs::Units::of_port))]
fn check_port(checker: &mut Checker<'_>, port: &Port) -> Result<ResolvedObjects, AllocError>
    ensures walk { OnOk result (checker.new ≡ walk (spec.of_port port.now).events checker.old) }
    ensures meaning { IfOk result (λ v. v ≡ (spec.of_port port.now).at checker.old) }
{
    check_objects(
        checker,
        Class::Port(port.mode),
        port.names.as_slice(),
        &port.subtype,
        port.default.as_ref(),
    )
}

fn check_ports(
    checker: &mut Checker<'_>,
    ports: &[Port],
) -> Result<Items<ResolvedObjects>, AllocError>
    ensures walk { OnOk result (checker.new ≡ walk (events_of (map spec.of_port ports.now)) checker.old) }
    ensures meaning { IfOk result (λ v. v ≡ all_at (map spec.of_port ports.now) checker.old) }
{
    let mut resolved = Items::new(checker.alloc());
    for port in ports {
        resolved.push(check_port(checker, port)?)?;
    }
    Ok(resolved)
}

fn check_entity(checker: &mut Checker<'_>, entity: &Entity) -> Result<ResolvedEntity, AllocError>
    ensures walk { OnOk result (checker.new ≡ walk (spec.of_entity entity.now).events checker.old) }
    ensures meaning { IfOk result (λ v. v ≡ (spec.of_entity entity.now).at checker.old) }
{
    let name = spelling(checker, &entity.name)?;
    checker.entity(&entity.name)?;
    let generics = check_generics(checker, entity.generics.as_slice())?;
    let ports = check_ports(checker, entity.ports.as_slice())?;
    checker.end_entity(&entity.name, &entity.end_name)?;
    Ok(ResolvedEntity {
        line: entity.line,
        name,
        generics,
        ports,
    })
}

// ---- architectures

#[tactic(auto, unfolding(crate::specs::Units::is_foreign))]
fn is_foreign(text: &[u8], declaration: &Declaration) -> bool
    ensures { result ≡ spec.is_foreign text.now declaration.now }
{
    match declaration {
        Declaration::Attribute(specification) => is_word(
            text,
            &specification.attribute,
            b"foreign",
        ),
        _ => false,
    }
}

fn are_foreign(text: &[u8], declarations: &[Declaration]) -> bool
    ensures { result ≡ list_all (spec.is_foreign text.now) declarations.now }
{
    declarations
        .iter()
        .all(|declaration| is_foreign(text, declaration))
}

// Whether nothing stands in an architecture but FOREIGN.
#[tactic(auto, unfolding(crate::specs::Units::is_bare))]
fn is_bare(text: &[u8], architecture: &Architecture) -> bool
    ensures { result ≡ spec.is_bare text.now architecture.now }
{
    are_foreign(text, architecture.declarations.as_slice()) && architecture.statements.len() == 0
}

// The number of an entity that stands before.
fn entity_named(checker: &Checker<'_>, token: &Token) -> Result<Option<usize>, AllocError>
    ensures { IfOk result (λ v. v ≡ entity_number (word_in checker.now.text token.now) checker.now.around) }
{
    let name = word(checker.alloc(), checker.text(), token)?;
    Ok(entity_number(name.as_str(), checker.around()))
}

fn check_architecture(
    checker: &mut Checker<'_>,
    text: &[u8],
    architecture: &Architecture,
) -> Result<ResolvedArchitecture, AllocError>
    ensures walk { OnOk result (checker.new ≡ walk (spec.of_architecture text.now architecture.now).events checker.old) }
    ensures meaning { IfOk result (λ v. v ≡ (spec.of_architecture text.now architecture.now).at checker.old) }
{
    let name = spelling(checker, &architecture.name)?;
    let entity = entity_named(checker, &architecture.entity)?;
    checker.architecture(
        &architecture.name,
        &architecture.entity,
        is_bare(text, architecture),
    )?;
    let declarations = check_declarations(checker, architecture.declarations.as_slice())?;
    let statements = check_concurrent_statements(checker, architecture.statements.as_slice())?;
    checker.end_architecture(&architecture.name, &architecture.end_name)?;
    Ok(ResolvedArchitecture {
        line: architecture.line,
        name,
        entity,
        declarations,
        statements,
    })
}

// ---- units

#[tactic(auto, unfolding(crate::specs::Units::of_context, vhdl_names_checker::specs::Progress::walk))]
fn check_context_clause(checker: &mut Checker<'_>, clause: &ContextClause) -> Result<(), AllocError>
    ensures { OnOk result (checker.new ≡ walk (spec.of_context clause.now) checker.old) }
{
    match clause {
        ContextClause::Library(names) => checker.library(names.as_slice()),
        ContextClause::Use(clause) => checker.uses(clause),
    }
}

fn check_context(checker: &mut Checker<'_>, context: &[ContextClause]) -> Result<(), AllocError>
    ensures { OnOk result (checker.new ≡ walk (flat_map spec.of_context context.now) checker.old) }
{
    for clause in context {
        check_context_clause(checker, clause)?;
    }
    Ok(())
}

#[tactic(auto, unfolding(crate::specs::Units::entity_unit))]
fn check_entity_unit(checker: &mut Checker<'_>, entity: &Entity) -> Result<ResolvedUnit, AllocError>
    ensures walk { OnOk result (checker.new ≡ walk (spec.entity_unit (spec.of_entity entity.now)).events checker.old) }
    ensures meaning { IfOk result (λ v. v ≡ (spec.entity_unit (spec.of_entity entity.now)).at checker.old) }
{
    let entity = check_entity(checker, entity)?;
    Ok(ResolvedUnit::Entity(entity))
}

#[tactic(auto, unfolding(crate::specs::Units::architecture_unit))]
fn check_architecture_unit(
    checker: &mut Checker<'_>,
    text: &[u8],
    architecture: &Architecture,
) -> Result<ResolvedUnit, AllocError>
    ensures walk { OnOk result (checker.new ≡ walk (spec.architecture_unit (spec.of_architecture text.now architecture.now)).events checker.old) }
    ensures meaning { IfOk result (λ v. v ≡ (spec.architecture_unit (spec.of_architecture text.now architecture.now)).at checker.old) }
{
    let architecture = check_architecture(checker, text, architecture)?;
    Ok(ResolvedUnit::Architecture(architecture))
}

#[tactic(auto, unfolding(crate::specs::Units::of_library_unit))]
fn check_library_unit(
    checker: &mut Checker<'_>,
    text: &[u8],
    unit: &LibraryUnit,
) -> Result<ResolvedUnit, AllocError>
    ensures walk { OnOk result (checker.new ≡ walk (spec.of_library_unit text.now unit.now).events checker.old) }
    ensures meaning { IfOk result (λ v. v ≡ (spec.of_library_unit text.now unit.now).at checker.old) }
{
    match unit {
        LibraryUnit::Entity(entity) => check_entity_unit(checker, entity),
        LibraryUnit::Architecture(architecture) => {
            check_architecture_unit(checker, text, architecture)
        }
    }
}

#[tactic(auto, using(crate::proofs::Walks::walks), unfolding(crate::specs::Units::of_unit))]
fn check_unit(
    checker: &mut Checker<'_>,
    text: &[u8],
    unit: &DesignUnit,
) -> Result<ResolvedUnit, AllocError>
    ensures walk { OnOk result (checker.new ≡ walk (spec.of_unit text.now unit.now).events checker.old) }
    ensures meaning { IfOk result (λ v. v ≡ (spec.of_unit text.now unit.now).at checker.old) }
{
    check_context(checker, unit.context.as_slice())?;
    let unit = check_library_unit(checker, text, &unit.unit)?;
    Ok(unit)
}

/// Goes along the units of a design file, in the order of the text.
#[tactic(auto, unfolding(crate::specs::Units::of_units))]
pub(crate) fn check_units(
    checker: &mut Checker<'_>,
    text: &[u8],
    units: &[DesignUnit],
) -> Result<Items<ResolvedUnit>, AllocError>
    ensures walk { OnOk result (checker.new ≡ walk (events_of (spec.of_units text.now units.now)) checker.old) }
    ensures meaning { IfOk result (λ v. v ≡ all_at (spec.of_units text.now units.now) checker.old) }
{
    let mut resolved = Items::new(checker.alloc());
    for unit in units {
        resolved.push(check_unit(checker, text, unit)?)?;
    }
    Ok(resolved)
}
