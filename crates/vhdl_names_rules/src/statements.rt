//! Sequential statements, and concurrent assignments, which have their parts (10, 11).

ghost use Rattle.std.specs.Prelude.{◌≡◌, IfOk, bytes_eq, map, not};
ghost use Rattle.std.specs.Char.{to_ascii_lowercase};
ghost use Rattle.std.specs.List.{flat_map, list_all};
ghost use Rattle.vhdl_names_rules.specs.Values as values_spec;
ghost use Rattle.vhdl_names_rules.specs.Statements as spec;
ghost use Rattle.vhdl_names_typing.specs.Faults as faults_spec;
ghost use Rattle.vhdl_units.specs.declared.fault.Rule.TheVariants as rule;

use crate::order::reversed;
use crate::told::{ElementTold, WaitTold};
use crate::values::{asked_optional, tested, valued};
use sqlite_items::Items;
use std::alloc::{AllocError, Global};
use vhdl_names_typing::{
    Denotes, NameTold, ObjectName, Told, append, at, break_if, is_known, is_signal_class,
};
use vhdl_tokens::{Token, span};
use vhdl_tree::Mode;
use vhdl_units::{BaseType, Class, Fault, Rule, Severity};

/// Whether `<=` can assign objects of a class: signals, and ports that aren't of mode `in` (10.5.2.1).
#[tactic(auto, unfolding(crate::specs::Statements::is_driven))]
fn is_driven(class: Class) -> bool
    ensures { result ≡ spec.is_driven class }
{
    match class {
        Class::Signal | Class::Port(Mode::Out) | Class::Port(Mode::Inout) => true,
        _ => false,
    }
}

/// Whether `:=` can assign objects of a class (10.6.2.1).
#[tactic(auto, unfolding(crate::specs::Statements::is_variable))]
fn is_variable(class: Class) -> bool
    ensures { result ≡ spec.is_variable class }
{
    match class {
        Class::Variable => true,
        _ => false,
    }
}

/// Whether `<=`, for `by_signal`, or else `:=` can assign objects of a class.
#[tactic(auto, unfolding(crate::specs::Statements::is_assignable))]
fn is_assignable(by_signal: bool, class: Class) -> bool
    ensures { result ≡ spec.is_assignable by_signal class }
{
    if by_signal {
        is_driven(class)
    } else {
        is_variable(class)
    }
}

/// The fault of a target that is no object, or one that can't be assigned so.
#[tactic(auto, unfolding(crate::specs::Statements::target_as))]
fn target_kind(
    alloc: Global,
    by_signal: bool,
    target: &NameTold,
) -> Result<Items<Fault>, AllocError>
    ensures { IfOk result (λ faults. faults ≡ spec.target_as by_signal target.now.denotes target.now) }
{
    match target.denotes {
        Denotes::Unknown => Ok(Items::new(alloc)),
        Denotes::Object(object) => {
            let broken = !is_assignable(by_signal, object.object.class);
            let names = target.names.as_slice();
            break_if(alloc, broken, names, target.place, Rule::NotAssignable)
        }
        _ => at(alloc, target.place, Rule::WrongKind),
    }
}

#[tactic(auto, unfolding(crate::specs::Statements::target_faults))]
fn target_faults(
    alloc: Global,
    by_signal: bool,
    target: NameTold,
) -> Result<Items<Fault>, AllocError>
    ensures { IfOk result (λ faults. faults ≡ spec.target_faults by_signal target) }
{
    let kind = target_kind(alloc, by_signal, &target)?;
    let (names, typing) = target.into_faults();
    append(names, append(typing, kind)?)
}

/// The type of a target, if it is an object.
#[tactic(auto, unfolding(crate::specs::Statements::target_type, crate::specs::Statements::target_type_as))]
fn target_type(target: &NameTold) -> Option<BaseType>
    ensures { result ≡ spec.target_type target.now }
{
    match target.denotes {
        Denotes::Object(object) => object.base,
        _ => None,
    }
}

/// Whether the bounds of a target are globally static: those of a declared object are, those of a slice may
/// not be.
#[tactic(auto, unfolding(crate::specs::Statements::is_static_target, crate::specs::Statements::is_static_target_as))]
fn is_static_target(target: &NameTold) -> bool
    ensures { result ≡ spec.is_static_target target.now }
{
    match target.denotes {
        Denotes::Object(object) => object.has_static_bounds,
        _ => true,
    }
}

#[tactic(auto, unfolding(crate::specs::Statements::element_faults))]
fn element_faults(
    alloc: Global,
    base: Option<BaseType>,
    is_static: bool,
    element: ElementTold,
) -> Result<Items<Fault>, AllocError>
    ensures { IfOk result (λ faults. faults ≡ spec.element_faults base is_static element) }
{
    let value = valued(alloc, base, is_static, element.value)?;
    append(value, asked_optional(alloc, BaseType::Time, element.after)?)
}

/// The faults of the elements of waveforms for a target of this type.
#[tactic(auto, unfolding(crate::specs::Statements::waveform_faults))]
fn waveform_faults(
    alloc: Global,
    base: Option<BaseType>,
    is_static: bool,
    elements: Items<ElementTold>,
) -> Result<Items<Fault>, AllocError>
    ensures { IfOk result (λ faults. faults ≡ spec.waveform_faults base is_static elements) }
{
    let mut rest = reversed(alloc, elements)?;
    let mut faults = Items::new(alloc);
    while let Some(element) = rest.pop() {
        faults.append(element_faults(alloc, base, is_static, element)?)?;
    }
    Ok(faults)
}

fn conditions_faults(alloc: Global, conditions: Items<Told>) -> Result<Items<Fault>, AllocError>
    ensures { IfOk result (λ faults. faults ≡ flat_map values_spec.tested conditions) }
{
    let mut rest = reversed(alloc, conditions)?;
    let mut faults = Items::new(alloc);
    while let Some(condition) = rest.pop() {
        faults.append(tested(alloc, condition)?)?;
    }
    Ok(faults)
}

/// The faults of a signal assignment, by its target, the time of `reject`, the elements of its waveforms and
/// its conditions (10.5, 11.6).
#[tactic(auto, unfolding(crate::specs::Statements::signal_assignment_faults))]
pub fn signal_assignment_faults(
    alloc: Global,
    target: NameTold,
    reject: Option<Told>,
    elements: Items<ElementTold>,
    conditions: Items<Told>,
) -> Result<Items<Fault>, AllocError>
    ensures { IfOk result (λ faults. faults ≡ spec.signal_assignment_faults target reject elements conditions) }
{
    let base = target_type(&target);
    let is_static = is_static_target(&target);
    let target = target_faults(alloc, true, target)?;
    let reject = asked_optional(alloc, BaseType::Time, reject)?;
    let elements = waveform_faults(alloc, base, is_static, elements)?;
    let conditions = conditions_faults(alloc, conditions)?;
    append(target, append(reject, append(elements, conditions)?)?)
}

/// The faults of a variable assignment (10.6).
#[tactic(auto, unfolding(crate::specs::Statements::variable_assignment_faults))]
pub fn variable_assignment_faults(
    alloc: Global,
    target: NameTold,
    value: Told,
) -> Result<Items<Fault>, AllocError>
    ensures { IfOk result (λ faults. faults ≡ spec.variable_assignment_faults target value) }
{
    let base = target_type(&target);
    let is_static = is_static_target(&target);
    let target = target_faults(alloc, false, target)?;
    append(target, valued(alloc, base, is_static, value)?)
}

/// Whether what is named is a signal, by a static name (8.1).
#[tactic(auto, unfolding(crate::specs::Statements::is_static_signal, vhdl_names_typing::specs::Attributes::is_signal))]
pub(crate) fn is_static_signal(object: ObjectName) -> bool
    ensures { result ≡ spec.is_static_signal object }
{
    is_signal_class(object.object.class) && object.is_static
}

/// The fault of a sensitivity name that is no object, or not the static name of a signal.
#[tactic(auto, unfolding(crate::specs::Statements::sensitive_as))]
fn sensitive_kind(alloc: Global, name: &NameTold) -> Result<Items<Fault>, AllocError>
    ensures { IfOk result (λ faults. faults ≡ spec.sensitive_as name.now.denotes name.now) }
{
    match name.denotes {
        Denotes::Unknown => Ok(Items::new(alloc)),
        Denotes::Object(object) => {
            let broken = !is_static_signal(object);
            let names = name.names.as_slice();
            break_if(alloc, broken, names, name.place, Rule::Sensitivity)
        }
        _ => at(alloc, name.place, Rule::WrongKind),
    }
}

#[tactic(auto, unfolding(crate::specs::Statements::sensitive_faults))]
fn sensitive_faults(alloc: Global, name: NameTold) -> Result<Items<Fault>, AllocError>
    ensures { IfOk result (λ faults. faults ≡ spec.sensitive_faults name) }
{
    let kind = sensitive_kind(alloc, &name)?;
    let (names, typing) = name.into_faults();
    append(names, append(typing, kind)?)
}

/// The faults of the names of a sensitivity list (10.2, 11.3).
#[tactic(auto, unfolding(crate::specs::Statements::sensitivity_faults))]
pub fn sensitivity_faults(alloc: Global, names: Items<NameTold>) -> Result<Items<Fault>, AllocError>
    ensures { IfOk result (λ faults. faults ≡ spec.sensitivity_faults names) }
{
    let mut rest = reversed(alloc, names)?;
    let mut faults = Items::new(alloc);
    while let Some(name) = rest.pop() {
        faults.append(sensitive_faults(alloc, name)?)?;
    }
    Ok(faults)
}

#[tactic(auto, unfolding(crate::specs::Statements::is_no_object))]
fn is_no_object(denotes: &Denotes) -> bool
    ensures { result ≡ spec.is_no_object denotes.now }
{
    match denotes {
        Denotes::Unknown | Denotes::Object(_) => false,
        _ => true,
    }
}

/// Whether neither a name in a name of a sensitivity list nor the name itself breaks a rule of visibility, kinds
/// or attributes.
#[tactic(auto, using(crate::proofs::KnownParts::name_known))]
fn is_name_known(name: &NameTold) -> bool
    ensures { result ≡ faults_spec.is_known (spec.names_of name.now) }
{
    is_known(name.names.as_slice()) && !is_no_object(&name.denotes)
}

fn are_known(names: &[NameTold]) -> bool
    ensures { result ≡ list_all (λ n. faults_spec.is_known (spec.names_of n)) names.now }
{
    names.iter().all(is_name_known)
}

/// Whether no name in an expression that may be left out breaks a rule of visibility, kinds or attributes.
#[tactic(auto, unfolding(crate::specs::Values::optional_names, vhdl_names_typing::specs::Faults::is_known))]
fn is_optional_known(told: &Option<Told>) -> bool
    ensures { result ≡ faults_spec.is_known (values_spec.optional_names told.now) }
{
    match told {
        Some(told) => is_known(told.names.as_slice()),
        None => true,
    }
}

/// Whether no name in a wait statement breaks a rule of visibility, kinds or attributes.
#[tactic(auto, using(crate::proofs::KnownParts::wait_known))]
fn is_wait_known(wait: &WaitTold) -> bool
    ensures { result ≡ faults_spec.is_known (spec.wait_names wait.now) }
{
    let on = are_known(wait.on.as_slice());
    let until = is_optional_known(&wait.until);
    let time = is_optional_known(&wait.time);
    on && until && time
}

/// The fault of a wait statement in a process with a sensitivity list.
#[tactic(auto, unfolding(vhdl_names_typing::specs::Faults::break_if))]
fn wait_not_allowed(
    alloc: Global,
    is_listed: bool,
    wait: &WaitTold,
) -> Result<Items<Fault>, AllocError>
    ensures { IfOk result (λ faults. faults ≡
        faults_spec.break_if is_listed (spec.wait_names wait.now) wait.now.place rule.WaitNotAllowed) }
{
    if is_listed && is_wait_known(wait) {
        at(alloc, wait.place, Rule::WaitNotAllowed)
    } else {
        Ok(Items::new(alloc))
    }
}

/// The faults of a wait statement, in a process with a sensitivity list for `is_listed` (10.2).
#[tactic(auto, unfolding(crate::specs::Statements::wait_faults))]
pub fn wait_faults(
    alloc: Global,
    is_listed: bool,
    wait: WaitTold,
) -> Result<Items<Fault>, AllocError>
    ensures { IfOk result (λ faults. faults ≡ spec.wait_faults is_listed wait) }
{
    let not_allowed = wait_not_allowed(alloc, is_listed, &wait)?;
    let on = sensitivity_faults(alloc, wait.on)?;
    let until = asked_optional(alloc, BaseType::Boolean, wait.until)?;
    let time = asked_optional(alloc, BaseType::Time, wait.time)?;
    append(on, append(until, append(time, not_allowed)?)?)
}

/// Whether a word is spelled so, in either case. The spelling is in lower case.
fn is_spelled(word: &[u8], spelling: &str) -> bool
    ensures { result ≡ bytes_eq (map to_ascii_lowercase word.now) (map to_ascii_lowercase spelling.now) }
{
    word.eq_ignore_ascii_case(spelling.as_bytes())
}

/// The severity level that a word names, in either case (16.3).
#[tactic(auto, unfolding(crate::specs::Statements::severity_named))]
pub fn severity_named(word: &[u8]) -> Option<Severity>
    ensures { result ≡ spec.severity_named (map to_ascii_lowercase word.now) }
{
    if is_spelled(word, "note") {
        Some(Severity::Note)
    } else if is_spelled(word, "warning") {
        Some(Severity::Warning)
    } else if is_spelled(word, "error") {
        Some(Severity::Error)
    } else if is_spelled(word, "failure") {
        Some(Severity::Failure)
    } else {
        None
    }
}

/// The fault of a word after `severity` that is none of the four levels, if there is one (10.3, 10.4).
#[tactic(auto, unfolding(crate::specs::Statements::severity_faults))]
pub fn severity_faults(
    alloc: Global,
    text: &[u8],
    level: Option<Token>,
) -> Result<Items<Fault>, AllocError>
    ensures { IfOk result (λ faults. faults ≡ spec.severity_faults text.now level) }
{
    match level {
        Some(token) => {
            if severity_named(span(text, &token)).is_some() {
                Ok(Items::new(alloc))
            } else {
                at(alloc, token.start, Rule::WrongKind)
            }
        }
        None => Ok(Items::new(alloc)),
    }
}

/// The fault of a `next` or `exit` in no such loop.
#[tactic(auto, unfolding(vhdl_names_typing::specs::Faults::break_if))]
fn outside_loop(
    alloc: Global,
    is_in_loop: bool,
    place: u32,
    condition: &Option<Told>,
) -> Result<Items<Fault>, AllocError>
    ensures { IfOk result (λ faults. faults ≡
        faults_spec.break_if (not is_in_loop) (values_spec.optional_names condition.now) place rule.NoSuchLoop) }
{
    if !is_in_loop && is_optional_known(condition) {
        at(alloc, place, Rule::NoSuchLoop)
    } else {
        Ok(Items::new(alloc))
    }
}

/// The faults of a next or exit statement, which stands in a loop, and in one of the label that it names, for
/// `is_in_loop` (10.11, 10.12).
///
/// `place` is the place of the label or, where it names none, of the word `next` or `exit`, in bytes from 0.
#[tactic(auto, unfolding(crate::specs::Statements::jump_faults))]
pub fn jump_faults(
    alloc: Global,
    is_in_loop: bool,
    place: u32,
    condition: Option<Told>,
) -> Result<Items<Fault>, AllocError>
    ensures { IfOk result (λ faults. faults ≡ spec.jump_faults is_in_loop place condition) }
{
    let outside = outside_loop(alloc, is_in_loop, place, &condition)?;
    append(
        asked_optional(alloc, BaseType::Boolean, condition)?,
        outside,
    )
}
