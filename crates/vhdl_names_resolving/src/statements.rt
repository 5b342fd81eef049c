//! What simple statements and the heads of others mean.

ghost use Rattle.std.specs.Prelude.{◌≡◌, IfOk, map};
ghost use Rattle.std.specs.Option.{option_copied, option_map};
ghost use Rattle.vhdl_names_meaning.specs.Ranges as ranges;
ghost use Rattle.vhdl_names_resolving.specs.Statements as spec;
ghost use Rattle.vhdl_names_resolving.specs.Values as values;
ghost use Rattle.vhdl_tokens.specs.Meaning.{span};
ghost use Rattle.vhdl_tokens.specs.Values.{text_value};

use crate::declarations::declared;
use crate::values::{choices_here, denoted_here, optional_at, range_here, targets_here, value_at};
use sqlite_items::Items;
use std::alloc::{AllocError, Global};
use vhdl_names_checker::Surroundings;
use vhdl_names_meaning::{Denoted, RangeCandidate, common_type, range_at, target_of};
use vhdl_names_rules::severity_named;
use vhdl_names_scope::word;
use vhdl_names_typing::literal_bounds;
use vhdl_tokens::{Token, span, string};
use vhdl_tree::{
    Alternative, Assertion, Bounds, Choice, ConcurrentAssignment, Delay, Element, Expr, Jump,
    Report, Scheme, Sensitivity, SignalAssignment, VariableAssignment, Wait,
};
use vhdl_units::{
    BaseType, ChoiceValue, Held, ResolvedAlternative, ResolvedAssertion, ResolvedAssignment,
    ResolvedBody, ResolvedConcurrentAssignment, ResolvedDelay, ResolvedElement, ResolvedJump,
    ResolvedReport, ResolvedScheme, ResolvedSensitivity, ResolvedWait, Severity, Value,
};

// ---- assertions and reports

#[tactic(auto, unfolding(crate::specs::Statements::severity_or))]
fn severity_or(otherwise: Severity, level: Option<Severity>) -> Severity
    ensures { result ≡ spec.severity_or otherwise level }
{
    match level {
        None => otherwise,
        Some(level) => level,
    }
}

#[tactic(auto, unfolding(crate::specs::Statements::severity_of))]
fn severity_of(text: &[u8], otherwise: Severity, level: &Option<Token>) -> Severity
    ensures { result ≡ spec.severity_of text.now otherwise level.now }
{
    match level {
        None => otherwise,
        Some(token) => severity_or(otherwise, severity_named(span(text, token))),
    }
}

#[tactic(auto, unfolding(crate::specs::Statements::bytes_or))]
fn bytes_or(alloc: Global, value: Option<Vec<u8>>) -> Items<u8>
    ensures { result ≡ spec.bytes_or (option_map (λ v. v.items) value) }
{
    match value {
        Some(bytes) => Items::from_vec(bytes),
        None => Items::new(alloc),
    }
}

// The characters of a string literal.
#[tactic(auto, unfolding(crate::specs::Statements::string_of))]
fn string_of(alloc: Global, text: &[u8], token: &Token) -> Result<Items<u8>, AllocError>
    ensures { IfOk result (λ v. v ≡ spec.string_of text.now token.now) }
{
    let value = string(alloc, text, token)?;
    Ok(bytes_or(alloc, value))
}

#[tactic(auto, unfolding(crate::specs::Statements::optional_string))]
fn optional_string(
    alloc: Global,
    text: &[u8],
    token: &Option<Token>,
) -> Result<Option<Items<u8>>, AllocError>
    ensures { IfOk result (λ v. v ≡ spec.optional_string text.now token.now) }
{
    match token {
        None => Ok(None),
        Some(token) => Ok(Some(string_of(alloc, text, token)?)),
    }
}

/// What a report says, and of which level it is: NOTE where none is named (10.4).
#[tactic(auto, unfolding(crate::specs::Statements::report_resolved))]
pub fn report_resolved(
    alloc: Global,
    text: &[u8],
    report: &Report,
) -> Result<ResolvedReport, AllocError>
    ensures { IfOk result (λ v. v ≡ spec.report_resolved text.now report.now) }
{
    let message = string_of(alloc, text, &report.text)?;
    Ok(ResolvedReport {
        text: message,
        severity: severity_of(text, Severity::Note, &report.severity),
    })
}

/// What an assertion tests and says here, and of which level it is: ERROR where none is named (10.3).
#[tactic(auto, unfolding(crate::specs::Statements::assertion_resolved))]
pub fn assertion_resolved(
    alloc: Global,
    text: &[u8],
    around: &Surroundings,
    assertion: &Assertion,
) -> Result<ResolvedAssertion, AllocError>
    ensures { IfOk result (λ v. v ≡ spec.assertion_resolved text.now around.now assertion.now) }
{
    let condition = Held::new(value_at(
        alloc,
        text,
        around,
        BaseType::Boolean,
        &assertion.condition,
    )?);
    let message = optional_string(alloc, text, &assertion.text)?;
    Ok(ResolvedAssertion {
        condition: condition.into_inner(),
        text: message,
        severity: severity_of(text, Severity::Error, &assertion.severity),
    })
}

// ---- wait

/// What a wait statement waits for here (10.2).
#[tactic(auto, unfolding(crate::specs::Statements::wait_resolved))]
pub fn wait_resolved(
    alloc: Global,
    text: &[u8],
    around: &Surroundings,
    wait: &Wait,
) -> Result<ResolvedWait, AllocError>
    ensures { IfOk result (λ v. v ≡ spec.wait_resolved text.now around.now wait.now) }
{
    let on = targets_here(alloc, text, around, wait.on.as_slice())?;
    let until = Held::new(optional_at(
        alloc,
        text,
        around,
        BaseType::Boolean,
        wait.until.as_ref(),
    )?);
    let time = optional_at(alloc, text, around, BaseType::Time, wait.time.as_ref())?;
    Ok(ResolvedWait {
        on,
        until: until.into_inner(),
        time,
    })
}

// ---- next and exit

// How many of the open loops stand between here and the loop of a label. Without one it is the innermost.
#[tactic(auto, unfolding(crate::specs::Statements::jump_loops))]
fn jump_loops(
    alloc: Global,
    text: &[u8],
    around: &Surroundings,
    label: &Option<Token>,
) -> Result<usize, AllocError>
    ensures { IfOk result (λ v. v ≡ spec.jump_loops text.now label.now around.now.loops) }
{
    match label {
        None => Ok(0),
        Some(token) => {
            let name = word(alloc, text, token)?;
            Ok(around.loops_within(name.as_str()))
        }
    }
}

/// Which loop a next or exit statement means here, and when (10.11, 10.12).
#[tactic(auto, unfolding(crate::specs::Statements::jump_resolved))]
pub fn jump_resolved(
    alloc: Global,
    text: &[u8],
    around: &Surroundings,
    jump: &Jump,
) -> Result<ResolvedJump, AllocError>
    ensures { IfOk result (λ v. v ≡ spec.jump_resolved text.now around.now jump.now) }
{
    let loops = jump_loops(alloc, text, around, &jump.label)?;
    let condition = optional_at(
        alloc,
        text,
        around,
        BaseType::Boolean,
        jump.condition.as_ref(),
    )?;
    Ok(ResolvedJump { loops, condition })
}

// ---- assignments

#[tactic(auto, unfolding(crate::specs::Statements::target_type))]
fn target_type(target: &Denoted) -> BaseType
    ensures { result ≡ spec.target_type target.now }
{
    match target {
        Denoted::Object(_, _, base, _) => *base,
        _ => BaseType::Integer,
    }
}

#[tactic(auto, unfolding(crate::specs::Statements::type_or_integer))]
fn type_or_integer(base: Option<BaseType>) -> BaseType
    ensures { result ≡ spec.type_or_integer base }
{
    match base {
        Some(base) => base,
        None => BaseType::Integer,
    }
}

#[tactic(auto, unfolding(crate::specs::Statements::delay_resolved))]
fn delay_resolved(
    alloc: Global,
    text: &[u8],
    around: &Surroundings,
    delay: &Delay,
) -> Result<ResolvedDelay, AllocError>
    ensures { IfOk result (λ v. v ≡ spec.delay_resolved text.now around.now delay.now) }
{
    match delay {
        Delay::Inertial => Ok(ResolvedDelay::Inertial),
        Delay::Reject(limit) => {
            let limit = value_at(alloc, text, around, BaseType::Time, limit)?;
            Ok(ResolvedDelay::Reject(limit))
        }
        Delay::Transport => Ok(ResolvedDelay::Transport),
    }
}

#[tactic(auto, unfolding(crate::specs::Statements::element_resolved))]
fn element_resolved(
    alloc: Global,
    text: &[u8],
    around: &Surroundings,
    base: BaseType,
    element: &Element,
) -> Result<ResolvedElement, AllocError>
    ensures { IfOk result (λ v. v ≡ spec.element_resolved text.now around.now base element.now) }
{
    let value = Held::new(value_at(alloc, text, around, base, &element.value)?);
    let after = optional_at(alloc, text, around, BaseType::Time, element.after.as_ref())?;
    Ok(ResolvedElement {
        value: value.into_inner(),
        after,
    })
}

#[tactic(auto, unfolding(crate::specs::Statements::waveform_resolved))]
fn waveform_resolved(
    alloc: Global,
    text: &[u8],
    around: &Surroundings,
    base: BaseType,
    elements: &[Element],
) -> Result<Items<ResolvedElement>, AllocError>
    ensures { IfOk result (λ v. v ≡ spec.waveform_resolved text.now around.now base elements.now) }
{
    let mut waveform = Items::new(alloc);
    for element in elements {
        waveform.push(element_resolved(alloc, text, around, base, element)?)?;
    }
    Ok(waveform)
}

#[tactic(auto, unfolding(crate::specs::Statements::assignment_to))]
fn assignment_to(
    alloc: Global,
    text: &[u8],
    around: &Surroundings,
    target: Denoted,
    delay: &Delay,
    waveform: &[Element],
) -> Result<ResolvedAssignment, AllocError>
    ensures { IfOk result (λ v. v ≡ spec.assignment_to text.now around.now target delay.now waveform.now) }
{
    let target = Held::new(target);
    let delay = delay_resolved(alloc, text, around, delay)?;
    let waveform = waveform_resolved(alloc, text, around, target_type(target.get()), waveform)?;
    Ok(ResolvedAssignment {
        target: target_of(target.into_inner()),
        delay,
        waveform,
    })
}

/// What a sequential signal assignment does here (10.5).
#[tactic(auto, unfolding(crate::specs::Statements::assignment_resolved))]
pub fn assignment_resolved(
    alloc: Global,
    text: &[u8],
    around: &Surroundings,
    assignment: &SignalAssignment,
) -> Result<ResolvedAssignment, AllocError>
    ensures { IfOk result (λ v. v ≡ spec.assignment_resolved text.now around.now assignment.now) }
{
    let target = denoted_here(alloc, text, around, &assignment.target)?;
    let waveform = assignment.waveform.as_slice();
    assignment_to(alloc, text, around, target, &assignment.delay, waveform)
}

#[tactic(auto, unfolding(crate::specs::Statements::variable_to))]
fn variable_to(
    alloc: Global,
    text: &[u8],
    around: &Surroundings,
    target: Denoted,
    value: &Expr,
) -> Result<ResolvedBody, AllocError>
    ensures { IfOk result (λ v. v ≡ spec.variable_to text.now around.now target value.now) }
{
    let target = Held::new(target);
    let value = value_at(alloc, text, around, target_type(target.get()), value)?;
    Ok(ResolvedBody::Variable(target_of(target.into_inner()), value))
}

/// What a variable assignment does here (10.6).
#[tactic(auto, unfolding(crate::specs::Statements::variable_resolved))]
pub fn variable_resolved(
    alloc: Global,
    text: &[u8],
    around: &Surroundings,
    assignment: &VariableAssignment,
) -> Result<ResolvedBody, AllocError>
    ensures { IfOk result (λ v. v ≡ spec.variable_resolved text.now around.now assignment.now) }
{
    let target = denoted_here(alloc, text, around, &assignment.target)?;
    variable_to(alloc, text, around, target, &assignment.value)
}

#[tactic(auto, unfolding(crate::specs::Statements::alternative_resolved))]
fn alternative_resolved(
    alloc: Global,
    text: &[u8],
    around: &Surroundings,
    base: BaseType,
    alternative: &Alternative,
) -> Result<ResolvedAlternative, AllocError>
    ensures { IfOk result (λ v. v ≡ spec.alternative_resolved text.now around.now base alternative.now) }
{
    let condition = Held::new(value_at(
        alloc,
        text,
        around,
        BaseType::Boolean,
        &alternative.condition,
    )?);
    let otherwise = waveform_resolved(alloc, text, around, base, alternative.otherwise.as_slice())?;
    Ok(ResolvedAlternative {
        condition: condition.into_inner(),
        otherwise,
    })
}

fn alternatives_resolved(
    alloc: Global,
    text: &[u8],
    around: &Surroundings,
    base: BaseType,
    alternatives: &[Alternative],
) -> Result<Items<ResolvedAlternative>, AllocError>
    ensures { IfOk result (λ v. v ≡ map (spec.alternative_resolved text.now around.now base) alternatives.now) }
{
    let mut resolved = Items::new(alloc);
    for alternative in alternatives {
        resolved.push(alternative_resolved(alloc, text, around, base, alternative)?)?;
    }
    Ok(resolved)
}

#[tactic(auto, unfolding(crate::specs::Statements::concurrent_to))]
fn concurrent_to(
    alloc: Global,
    text: &[u8],
    around: &Surroundings,
    target: Denoted,
    assignment: &ConcurrentAssignment,
) -> Result<ResolvedConcurrentAssignment, AllocError>
    ensures { IfOk result (λ v. v ≡ spec.concurrent_to text.now around.now target assignment.now) }
{
    let base = target_type(&target);
    let target = Held::new(target);
    let delay = delay_resolved(alloc, text, around, &assignment.delay)?;
    let waveform = waveform_resolved(alloc, text, around, base, assignment.waveform.as_slice())?;
    let alternatives = alternatives_resolved(
        alloc,
        text,
        around,
        base,
        assignment.alternatives.as_slice(),
    )?;
    let condition = optional_at(
        alloc,
        text,
        around,
        BaseType::Boolean,
        assignment.condition.as_ref(),
    )?;
    Ok(ResolvedConcurrentAssignment {
        postponed: assignment.postponed,
        target: target_of(target.into_inner()),
        delay,
        waveform,
        alternatives,
        condition,
    })
}

/// What a concurrent signal assignment does here (11.6).
#[tactic(auto, unfolding(crate::specs::Statements::concurrent_resolved))]
pub fn concurrent_resolved(
    alloc: Global,
    text: &[u8],
    around: &Surroundings,
    assignment: &ConcurrentAssignment,
) -> Result<ResolvedConcurrentAssignment, AllocError>
    ensures { IfOk result (λ v. v ≡ spec.concurrent_resolved text.now around.now assignment.now) }
{
    let target = denoted_here(alloc, text, around, &assignment.target)?;
    concurrent_to(alloc, text, around, target, assignment)
}

// ---- case statements

/// What a case statement chooses by, inside of it: there its type is known (10.9).
#[tactic(auto, unfolding(crate::specs::Statements::subject_resolved))]
pub fn subject_resolved(
    alloc: Global,
    text: &[u8],
    around: &Surroundings,
    subject: &Expr,
) -> Result<Value, AllocError>
    ensures { IfOk result (λ v. v ≡ spec.subject_resolved text.now around.now subject.now) }
{
    value_at(
        alloc,
        text,
        around,
        type_or_integer(around.subject()),
        subject,
    )
}

/// What the choices of an arm mean here, inside of its case statement (10.9).
#[tactic(auto, unfolding(crate::specs::Statements::choices_resolved))]
pub fn choices_resolved(
    alloc: Global,
    text: &[u8],
    around: &Surroundings,
    choices: &[Choice],
) -> Result<Items<ChoiceValue>, AllocError>
    ensures { IfOk result (λ v. v ≡ spec.choices_resolved text.now around.now choices.now) }
{
    choices_here(
        alloc,
        text,
        around,
        type_or_integer(around.subject()),
        choices,
    )
}

// ---- loops

#[tactic(auto, unfolding(crate::specs::Statements::loop_over))]
fn loop_over(
    alloc: Global,
    text: &[u8],
    around: &Surroundings,
    token: &Token,
    base: BaseType,
    range: RangeCandidate,
) -> Result<ResolvedScheme, AllocError>
    ensures { IfOk result (λ v. v ≡ spec.loop_over text.now around.now token.now base range) }
{
    let range = Held::new(range);
    let parameter = declared(alloc, text, around.next_number(), token)?;
    let bounds = range_at(alloc, base, range.into_inner())?;
    Ok(ResolvedScheme::For(parameter, base, bounds))
}

// The one discrete type that the bounds of a loop's range have in common. Where both are enumeration literals it was
// kept when the loop was tested.
fn loop_base(
    alloc: Global,
    text: &[u8],
    around: &Surroundings,
    bounds: &Bounds,
    range: &RangeCandidate,
) -> Result<Option<BaseType>, AllocError>
    requires { range.now ≡ values.range_here text.now around.now bounds.now }
    ensures { IfOk result (λ base. base ≡ ranges.common_type range.now) }
{
    match literal_bounds(alloc, text, around.regions(), bounds)? {
        Some(names) => Ok(names.common(alloc, around.regions())?),
        None => Ok(common_type(range)),
    }
}

#[tactic(auto, unfolding(crate::specs::Statements::for_resolved))]
fn for_resolved(
    alloc: Global,
    text: &[u8],
    around: &Surroundings,
    token: &Token,
    bounds: &Bounds,
) -> Result<ResolvedScheme, AllocError>
    ensures { IfOk result (λ v. v ≡ spec.for_resolved text.now around.now token.now (values.range_here text.now around.now bounds.now)) }
{
    let range = Held::new(range_here(alloc, text, around, bounds)?);
    let base = type_or_integer(loop_base(alloc, text, around, bounds, range.get())?);
    loop_over(alloc, text, around, token, base, range.into_inner())
}

/// How often a loop runs that begins here (10.10).
#[tactic(auto, unfolding(crate::specs::Statements::scheme_resolved))]
pub fn scheme_resolved(
    alloc: Global,
    text: &[u8],
    around: &Surroundings,
    scheme: &Scheme,
) -> Result<ResolvedScheme, AllocError>
    ensures { IfOk result (λ v. v ≡ spec.scheme_resolved text.now around.now scheme.now) }
{
    match scheme {
        Scheme::Forever => Ok(ResolvedScheme::Forever),
        Scheme::While(condition) => {
            let condition = value_at(alloc, text, around, BaseType::Boolean, condition)?;
            Ok(ResolvedScheme::While(condition))
        }
        Scheme::For(token, bounds) => for_resolved(alloc, text, around, token, bounds),
    }
}

// ---- processes

/// What a process is sensitive to by its list (11.3).
#[tactic(auto, unfolding(crate::specs::Statements::sensitivity_resolved))]
pub fn sensitivity_resolved(
    alloc: Global,
    text: &[u8],
    around: &Surroundings,
    sensitivity: &Sensitivity,
) -> Result<ResolvedSensitivity, AllocError>
    ensures { IfOk result (λ v. v ≡ spec.sensitivity_resolved text.now around.now sensitivity.now) }
{
    match sensitivity {
        Sensitivity::Unlisted => Ok(ResolvedSensitivity::Unlisted),
        Sensitivity::All => Ok(ResolvedSensitivity::All),
        Sensitivity::Names(names) => {
            let names = targets_here(alloc, text, around, names.as_slice())?;
            Ok(ResolvedSensitivity::Names(names))
        }
    }
}
