//! The form of a syntax tree, one function a production.

ghost use Rattle.std.specs.Prelude.{◌≡◌, ℕ, nat_eq, length};
ghost use Rattle.std.specs.Str.{bytes_eq};
ghost use Rattle.first_form.specs.Answers.{Gives};
ghost use Rattle.first_form.specs.Reading as spec;
ghost use Rattle.first_form.specs.Reading.{each};

use crate::fault::FormError;
use crate::form::{Assignment, Element, Form, TimeUnit};
use sqlite_items::Items;
use std::alloc::Global;
use vhdl_tokens::{Kind, Token, character, identifier, integer};
use vhdl_tree::{
    Architecture, Concurrent, ConcurrentAssignment, ConcurrentBody, Declaration, Delay, DesignFile,
    DesignUnit, Entity, Expr, LibraryUnit, Name, ObjectDeclaration, Subtype,
};

/// The word of an identifier, in lower case (15.4.2).
fn word_in(alloc: Global, text: &[u8], token: &Token) -> Result<Items<u8>, FormError>
    ensures { Gives (λ w. w) result (spec.word_in text.now token.now) }
{
    match identifier(alloc, text, token)? {
        Some(word) => Ok(Items::from_vec(word)),
        None => Err(FormError::NotBuilt),
    }
}

fn is(word: &[u8], name: &str) -> bool
    ensures { result ≡ bytes_eq word.now name.now }
{
    word == name.as_bytes()
}

fn unit_named(word: &[u8]) -> Option<TimeUnit>
    ensures { result ≡ spec.unit_named word.now }
{
    if is(word, "fs") {
        return Some(TimeUnit::Femtosecond);
    }
    if is(word, "ps") {
        return Some(TimeUnit::Picosecond);
    }
    if is(word, "ns") {
        return Some(TimeUnit::Nanosecond);
    }
    if is(word, "us") {
        return Some(TimeUnit::Microsecond);
    }
    if is(word, "ms") {
        return Some(TimeUnit::Millisecond);
    }
    if is(word, "sec") {
        return Some(TimeUnit::Second);
    }
    if is(word, "min") {
        return Some(TimeUnit::Minute);
    }
    if is(word, "hr") {
        return Some(TimeUnit::Hour);
    }
    None
}

/// Whether a word may be declared: it is neither `bit` nor a unit of time.
fn is_free(word: &[u8]) -> bool
    ensures { result ≡ spec.is_free word.now }
{
    !is(word, "bit") && unit_named(word).is_none()
}

/// `id`
#[tactic(auto, unfolding(crate::specs::Reading::name_in))]
fn name_in(alloc: Global, text: &[u8], token: &Token) -> Result<Items<u8>, FormError>
    ensures { Gives (λ w. w) result (spec.name_in text.now token.now) }
{
    let word = word_in(alloc, text, token)?;
    if !is_free(word.as_slice()) {
        return Err(FormError::NotBuilt);
    }
    Ok(word)
}

/// `bit`
#[tactic(auto, unfolding(crate::specs::Reading::bit_in))]
fn bit_in(alloc: Global, text: &[u8], mark: &Token) -> Result<(), FormError>
    ensures { Gives (λ _. tt) result (spec.bit_in text.now mark.now) }
{
    let word = word_in(alloc, text, mark)?;
    if !is(word.as_slice(), "bit") {
        return Err(FormError::NotBuilt);
    }
    Ok(())
}

/// A unit of time (5.2.4.1).
#[tactic(auto, unfolding(crate::specs::Reading::unit_in))]
fn unit_in(alloc: Global, text: &[u8], token: &Token) -> Result<TimeUnit, FormError>
    ensures { Gives (λ u. u) result (spec.unit_in text.now token.now) }
{
    let word = word_in(alloc, text, token)?;
    match unit_named(word.as_slice()) {
        Some(unit) => Ok(unit),
        None => Err(FormError::NotBuilt),
    }
}

/// A subtype indication (6.3) that is `bit` alone.
#[tactic(auto, unfolding(crate::specs::Reading::subtype_in))]
fn subtype_in(alloc: Global, text: &[u8], subtype: &Subtype) -> Result<(), FormError>
    ensures { Gives (λ _. tt) result (spec.subtype_in text.now subtype.now) }
{
    if subtype.constraint.is_some() {
        return Err(FormError::NotBuilt);
    }
    bit_in(alloc, text, &subtype.mark)
}

/// The name of a declaration that has one.
#[tactic(auto, unfolding(crate::specs::Reading::names_in))]
fn names_in(alloc: Global, text: &[u8], names: &[Token]) -> Result<Items<u8>, FormError>
    ensures { Gives (λ w. w) result (spec.names_in text.now names.now) }
{
    match names {
        [name] => name_in(alloc, text, name),
        _ => Err(FormError::NotBuilt),
    }
}

/// `id : bit`
#[tactic(auto, unfolding(crate::specs::Reading::object_in))]
fn object_in(alloc: Global, text: &[u8], object: &ObjectDeclaration) -> Result<Items<u8>, FormError>
    ensures { Gives (λ w. w) result (spec.object_in text.now object.now) }
{
    if object.initial.is_some() {
        return Err(FormError::NotBuilt);
    }
    subtype_in(alloc, text, &object.subtype)?;
    names_in(alloc, text, object.names.as_slice())
}

/// `signal id : bit ;` (6.4.2.3)
#[tactic(auto, unfolding(crate::specs::Reading::signal_in))]
fn signal_in(alloc: Global, text: &[u8], declaration: &Declaration) -> Result<Items<u8>, FormError>
    ensures { Gives (λ w. w) result (spec.signal_in text.now declaration.now) }
{
    match declaration {
        Declaration::Signal(object) => object_in(alloc, text, object),
        _ => Err(FormError::NotBuilt),
    }
}

fn signals_in(
    alloc: Global,
    text: &[u8],
    declarations: &[Declaration],
) -> Result<Items<Items<u8>>, FormError>
    ensures { Gives (λ s. s) result (each (spec.signal_in text.now) declarations.now) }
{
    let mut signals = Items::new(alloc);
    for declaration in declarations {
        match signal_in(alloc, text, declaration) {
            Ok(signal) => signals.push(signal)?,
            Err(fault) => return Err(fault),
        }
    }
    Ok(signals)
}

/// The byte of a character literal (15.6).
fn char_in(text: &[u8], token: &Token) -> Option<u8>
    ensures { result ≡ spec.char_in text.now token.now }
{
    match token.kind {
        Kind::Char => character(text, token),
        _ => None,
    }
}

/// `CHAR`
#[tactic(auto, unfolding(crate::specs::Reading::literal_in))]
fn literal_in(text: &[u8], value: &Expr) -> Option<u8>
    ensures { result ≡ spec.literal_in text.now value.now }
{
    match value {
        Expr::Literal(token) => char_in(text, token),
        _ => None,
    }
}

/// The number and the unit of a time.
#[tactic(auto, unfolding(crate::specs::Reading::amount_in))]
fn amount_in(
    alloc: Global,
    text: &[u8],
    number: &Token,
    unit: &Token,
) -> Result<(u128, TimeUnit), FormError>
    ensures { Gives (λ t. t) result (spec.amount_in text.now number.now unit.now) }
{
    let Some(number) = integer(text, number) else {
        return Err(FormError::NotBuilt);
    };
    let unit = unit_in(alloc, text, unit)?;
    Ok((number, unit))
}

/// `INT unit` (9.3.2)
#[tactic(auto, unfolding(crate::specs::Reading::time_in))]
fn time_in(alloc: Global, text: &[u8], time: &Expr) -> Result<(u128, TimeUnit), FormError>
    ensures { Gives (λ t. t) result (spec.time_in text.now time.now) }
{
    match time {
        Expr::Number(number, Some(unit)) => amount_in(alloc, text, number, unit),
        _ => Err(FormError::NotBuilt),
    }
}

/// `after INT unit`
#[tactic(auto, unfolding(crate::specs::Reading::after_in))]
fn after_in(alloc: Global, text: &[u8], after: &Option<Expr>) -> Result<(u128, TimeUnit), FormError>
    ensures { Gives (λ t. t) result (spec.after_in text.now after.now) }
{
    match after {
        Some(time) => time_in(alloc, text, time),
        None => Err(FormError::NotBuilt),
    }
}

/// `CHAR after INT unit` (10.5.2.1)
#[tactic(auto, unfolding(crate::specs::Reading::element_in))]
fn element_in(
    alloc: Global,
    text: &[u8],
    element: &vhdl_tree::Element,
) -> Result<Element, FormError>
    ensures { Gives (λ e. e) result (spec.element_in text.now element.now) }
{
    let Some(literal) = literal_in(text, &element.value) else {
        return Err(FormError::NotBuilt);
    };
    let (number, unit) = after_in(alloc, text, &element.after)?;
    Ok(Element {
        literal,
        number,
        unit,
    })
}

fn elements_in(
    alloc: Global,
    text: &[u8],
    waveform: &[vhdl_tree::Element],
) -> Result<Items<Element>, FormError>
    ensures { Gives (λ e. e) result (each (spec.element_in text.now) waveform.now) }
{
    let mut elements = Items::new(alloc);
    for element in waveform {
        match element_in(alloc, text, element) {
            Ok(element) => elements.push(element)?,
            Err(fault) => return Err(fault),
        }
    }
    Ok(elements)
}

/// A target that is a name alone.
#[tactic(auto, unfolding(crate::specs::Reading::target_in))]
fn target_in(alloc: Global, text: &[u8], target: &Name) -> Result<Items<u8>, FormError>
    ensures { Gives (λ w. w) result (spec.target_in text.now target.now) }
{
    if target.parts.len() != 0 {
        return Err(FormError::NotBuilt);
    }
    name_in(alloc, text, &target.identifier)
}

fn is_inertial(delay: &Delay) -> bool
    ensures { result ≡ spec.is_inertial delay.now }
{
    matches!(delay, Delay::Inertial)
}

/// Whether an assignment is not postponed, of inertial delay, and of one waveform with no condition.
fn is_plain(assignment: &ConcurrentAssignment) -> bool
    ensures { result ≡ spec.is_plain assignment.now }
{
    !assignment.postponed
        && is_inertial(&assignment.delay)
        && assignment.alternatives.len() == 0
        && assignment.condition.is_none()
}

/// `id <= elem { , elem } ;` (11.6)
#[tactic(auto, unfolding(crate::specs::Reading::assignment_in))]
fn assignment_in(
    alloc: Global,
    text: &[u8],
    assignment: &ConcurrentAssignment,
) -> Result<Assignment, FormError>
    ensures { Gives (λ a. a) result (spec.assignment_in text.now assignment.now) }
{
    if !is_plain(assignment) {
        return Err(FormError::NotBuilt);
    }
    let target = target_in(alloc, text, &assignment.target)?;
    let elements = elements_in(alloc, text, assignment.waveform.as_slice())?;
    Ok(Assignment { target, elements })
}

#[tactic(auto, unfolding(crate::specs::Reading::body_in))]
fn body_in(alloc: Global, text: &[u8], body: &ConcurrentBody) -> Result<Assignment, FormError>
    ensures { Gives (λ a. a) result (spec.body_in text.now body.now) }
{
    match body {
        ConcurrentBody::Assignment(assignment) => assignment_in(alloc, text, assignment),
        _ => Err(FormError::NotBuilt),
    }
}

/// A statement that is an assignment without a label.
#[tactic(auto, unfolding(crate::specs::Reading::statement_in))]
fn statement_in(alloc: Global, text: &[u8], statement: &Concurrent) -> Result<Assignment, FormError>
    ensures { Gives (λ a. a) result (spec.statement_in text.now statement.now) }
{
    if statement.label.is_some() {
        return Err(FormError::NotBuilt);
    }
    body_in(alloc, text, &statement.body)
}

fn assignments_in(
    alloc: Global,
    text: &[u8],
    statements: &[Concurrent],
) -> Result<Items<Assignment>, FormError>
    ensures { Gives (λ a. a) result (each (spec.statement_in text.now) statements.now) }
{
    let mut assignments = Items::new(alloc);
    for statement in statements {
        match statement_in(alloc, text, statement) {
            Ok(assignment) => assignments.push(assignment)?,
            Err(fault) => return Err(fault),
        }
    }
    Ok(assignments)
}

/// `entity id is end ;` (3.2)
#[tactic(auto, unfolding(crate::specs::Reading::entity_in))]
fn entity_in(alloc: Global, text: &[u8], entity: &Entity) -> Result<Items<u8>, FormError>
    ensures { Gives (λ w. w) result (spec.entity_in text.now entity.now) }
{
    if entity.generics.len() != 0 || entity.ports.len() != 0 || entity.end_name.is_some() {
        return Err(FormError::NotBuilt);
    }
    name_in(alloc, text, &entity.name)
}

#[tactic(auto, unfolding(crate::specs::Reading::entity_of))]
fn entity_of(alloc: Global, text: &[u8], unit: &LibraryUnit) -> Result<Items<u8>, FormError>
    ensures { Gives (λ w. w) result (spec.entity_of text.now unit.now) }
{
    match unit {
        LibraryUnit::Entity(entity) => entity_in(alloc, text, entity),
        _ => Err(FormError::NotBuilt),
    }
}

/// The entity's name, in a unit without a context.
#[tactic(auto, unfolding(crate::specs::Reading::first_in))]
fn first_in(alloc: Global, text: &[u8], unit: &DesignUnit) -> Result<Items<u8>, FormError>
    ensures { Gives (λ w. w) result (spec.first_in text.now unit.now) }
{
    if unit.context.len() != 0 {
        return Err(FormError::NotBuilt);
    }
    entity_of(alloc, text, &unit.unit)
}

/// `of id`, which is the entity's name.
#[tactic(auto, unfolding(crate::specs::Reading::of_in))]
fn of_in(alloc: Global, text: &[u8], entity: &[u8], token: &Token) -> Result<(), FormError>
    ensures { Gives (λ _. tt) result (spec.of_in text.now entity.now token.now) }
{
    let name = name_in(alloc, text, token)?;
    if name.as_slice() != entity {
        return Err(FormError::NotBuilt);
    }
    Ok(())
}

/// `architecture id of id is { signal id : bit ; } begin { id <= elem { , elem } ; } end ;` (3.3)
#[tactic(auto, unfolding(crate::specs::Reading::architecture_in))]
fn architecture_in(
    alloc: Global,
    text: &[u8],
    entity: Items<u8>,
    architecture: &Architecture,
) -> Result<Form, FormError>
    ensures { Gives (λ f. f) result (spec.architecture_in text.now entity architecture.now) }
{
    if architecture.end_name.is_some() {
        return Err(FormError::NotBuilt);
    }
    let name = name_in(alloc, text, &architecture.name)?;
    of_in(alloc, text, entity.as_slice(), &architecture.entity)?;
    let signals = signals_in(alloc, text, architecture.declarations.as_slice())?;
    let assignments = assignments_in(alloc, text, architecture.statements.as_slice())?;
    Ok(Form {
        entity,
        architecture: name,
        signals,
        assignments,
    })
}

#[tactic(auto, unfolding(crate::specs::Reading::architecture_of))]
fn architecture_of(
    alloc: Global,
    text: &[u8],
    entity: Items<u8>,
    unit: &LibraryUnit,
) -> Result<Form, FormError>
    ensures { Gives (λ f. f) result (spec.architecture_of text.now entity unit.now) }
{
    match unit {
        LibraryUnit::Architecture(architecture) => {
            architecture_in(alloc, text, entity, architecture)
        }
        _ => Err(FormError::NotBuilt),
    }
}

/// The whole form, in a unit without a context.
#[tactic(auto, unfolding(crate::specs::Reading::second_in))]
fn second_in(
    alloc: Global,
    text: &[u8],
    entity: Items<u8>,
    unit: &DesignUnit,
) -> Result<Form, FormError>
    ensures { Gives (λ f. f) result (spec.second_in text.now entity unit.now) }
{
    if unit.context.len() != 0 {
        return Err(FormError::NotBuilt);
    }
    architecture_of(alloc, text, entity, &unit.unit)
}

#[tactic(auto, unfolding(crate::specs::Reading::units_in))]
fn units_in(alloc: Global, text: &[u8], units: &[DesignUnit]) -> Result<Form, FormError>
    ensures { Gives (λ f. f) result (spec.units_in text.now units.now) }
{
    match units {
        [first, second] => {
            let entity = first_in(alloc, text, first)?;
            second_in(alloc, text, entity, second)
        }
        _ => Err(FormError::NotBuilt),
    }
}

/// The form of a design file (13.1), if it is of the first form.
#[tactic(auto, unfolding(crate::specs::Reading::form_in))]
pub fn form_in(alloc: Global, text: &[u8], file: &DesignFile) -> Result<Form, FormError>
    ensures { Gives (λ f. f) result (spec.form_in text.now file.now) }
{
    units_in(alloc, text, file.units.as_slice())
}
