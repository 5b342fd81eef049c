//! Sequential statements, along a design file. The calls nest as deep as the statements do.

ghost use Rattle.std.specs.Prelude.{◌≡◌, IfOk, OnOk, map};
ghost use Rattle.vhdl_names_checker.specs.Progress.{walk};
ghost use Rattle.vhdl_names.specs.Parts.{all_at, events_of, with_last};
ghost use Rattle.vhdl_names.specs.Statements as spec;
ghost use Rattle.vhdl_names_resolving.specs.Statements as resolved;

use sqlite_items::Items;
use std::alloc::AllocError;
use vhdl_names_checker::Checker;
use vhdl_names_resolving::{
    assertion_resolved, assignment_resolved, choices_resolved, jump_resolved, label_here,
    report_resolved, scheme_resolved, subject_resolved, value_at, variable_resolved, wait_resolved,
};
use vhdl_tokens::Token;
use vhdl_tree::{
    Arm, Assertion, Body, Case, Choice, Elsif, Expr, If, Jump, Loop, Report, Scheme,
    SignalAssignment, Statement, VariableAssignment, Wait,
};
use vhdl_units::{
    BaseType, ChoiceValue, Declared, Held, ResolvedArm, ResolvedBody, ResolvedCase, ResolvedElsif,
    ResolvedIf, ResolvedLoop, ResolvedScheme, ResolvedStatement, Value,
};

/// What a condition means here.
#[tactic(auto, unfolding(crate::specs::Statements::condition_in))]
fn condition(checker: &Checker<'_>, expr: &Expr) -> Result<Value, AllocError>
    ensures { IfOk result (λ v. v ≡ spec.condition_in checker.now expr.now) }
{
    value_at(
        checker.alloc(),
        checker.text(),
        checker.around(),
        BaseType::Boolean,
        expr,
    )
}

/// What a case statement chooses by means here, behind its beginning.
fn subject(checker: &Checker<'_>, expr: &Expr) -> Result<Value, AllocError>
    ensures { IfOk result (λ v. v ≡ resolved.subject_resolved checker.now.text checker.now.around expr.now) }
{
    subject_resolved(checker.alloc(), checker.text(), checker.around(), expr)
}

/// What the choices of a case statement mean here.
fn choices(checker: &Checker<'_>, choices: &[Choice]) -> Result<Items<ChoiceValue>, AllocError>
    ensures { IfOk result (λ v. v ≡ resolved.choices_resolved checker.now.text checker.now.around choices.now) }
{
    choices_resolved(checker.alloc(), checker.text(), checker.around(), choices)
}

/// How often a loop runs, by what it means here.
fn scheme(checker: &Checker<'_>, scheme: &Scheme) -> Result<ResolvedScheme, AllocError>
    ensures { IfOk result (λ v. v ≡ resolved.scheme_resolved checker.now.text checker.now.around scheme.now) }
{
    scheme_resolved(checker.alloc(), checker.text(), checker.around(), scheme)
}

// ---- labels

#[tactic(auto, unfolding(crate::specs::Statements::label_events, vhdl_names_checker::specs::Progress::walk))]
fn declare_label(checker: &mut Checker<'_>, label: &Option<Token>) -> Result<(), AllocError>
    ensures { OnOk result (checker.new ≡ walk (spec.label_events label.now) checker.old) }
{
    match label {
        Some(token) => checker.labelled(token),
        None => Ok(()),
    }
}

/// Declares the label of a statement, if it has one.
#[tactic(auto, unfolding(crate::specs::Statements::of_label))]
pub(crate) fn check_label(
    checker: &mut Checker<'_>,
    label: &Option<Token>,
) -> Result<Option<Declared>, AllocError>
    ensures walk { OnOk result (checker.new ≡ walk (spec.of_label label.now).events checker.old) }
    ensures meaning { IfOk result (λ v. v ≡ (spec.of_label label.now).at checker.old) }
{
    let resolved = label_here(checker.alloc(), checker.text(), checker.around(), label)?;
    declare_label(checker, label).and(Ok(resolved))
}

// ---- statements without others in them

#[tactic(auto, unfolding(crate::specs::Statements::of_wait, vhdl_names_checker::specs::Progress::walk))]
fn check_wait(checker: &mut Checker<'_>, statement: &Wait) -> Result<ResolvedBody, AllocError>
    ensures walk { OnOk result (checker.new ≡ walk (spec.of_wait statement.now).events checker.old) }
    ensures meaning { IfOk result (λ v. v ≡ (spec.of_wait statement.now).at checker.old) }
{
    let resolved = wait_resolved(checker.alloc(), checker.text(), checker.around(), statement)?;
    checker
        .waits(statement)
        .and(Ok(ResolvedBody::Wait(resolved)))
}

#[tactic(auto, unfolding(crate::specs::Statements::of_assertion, vhdl_names_checker::specs::Progress::walk))]
fn check_assertion(
    checker: &mut Checker<'_>,
    statement: &Assertion,
) -> Result<ResolvedBody, AllocError>
    ensures walk { OnOk result (checker.new ≡ walk (spec.of_assertion statement.now).events checker.old) }
    ensures meaning { IfOk result (λ v. v ≡ (spec.of_assertion statement.now).at checker.old) }
{
    let resolved = assertion_resolved(
        checker.alloc(),
        checker.text(),
        checker.around(),
        statement,
    )?;
    checker
        .asserted(statement)
        .and(Ok(ResolvedBody::Assert(resolved)))
}

#[tactic(auto, unfolding(crate::specs::Statements::of_report, vhdl_names_checker::specs::Progress::walk))]
fn check_report(checker: &mut Checker<'_>, statement: &Report) -> Result<ResolvedBody, AllocError>
    ensures walk { OnOk result (checker.new ≡ walk (spec.of_report statement.now).events checker.old) }
    ensures meaning { IfOk result (λ v. v ≡ (spec.of_report statement.now).at checker.old) }
{
    let resolved = report_resolved(checker.alloc(), checker.text(), statement)?;
    checker
        .reported(statement)
        .and(Ok(ResolvedBody::Report(resolved)))
}

#[tactic(auto, unfolding(crate::specs::Statements::of_assignment, vhdl_names_checker::specs::Progress::walk))]
fn check_assignment(
    checker: &mut Checker<'_>,
    statement: &SignalAssignment,
) -> Result<ResolvedBody, AllocError>
    ensures walk { OnOk result (checker.new ≡ walk (spec.of_assignment statement.now).events checker.old) }
    ensures meaning { IfOk result (λ v. v ≡ (spec.of_assignment statement.now).at checker.old) }
{
    let resolved = assignment_resolved(
        checker.alloc(),
        checker.text(),
        checker.around(),
        statement,
    )?;
    checker
        .assigned(
            &statement.target,
            &statement.delay,
            statement.waveform.as_slice(),
            &[],
            None,
        )
        .and(Ok(ResolvedBody::Signal(resolved)))
}

// The event changes nothing that stands around.
#[tactic(auto, unfolding(crate::specs::Statements::of_variable, vhdl_names_checker::specs::Progress::walk, vhdl_names_checker::specs::Progress::step, vhdl_names_checker::specs::After::after))]
fn check_variable(
    checker: &mut Checker<'_>,
    statement: &VariableAssignment,
) -> Result<ResolvedBody, AllocError>
    ensures walk { OnOk result (checker.new ≡ walk (spec.of_variable statement.now).events checker.old) }
    ensures meaning { IfOk result (λ v. v ≡ (spec.of_variable statement.now).at checker.old) }
{
    checker.assigned_variable(&statement.target, &statement.value)?;
    variable_resolved(checker.alloc(), checker.text(), checker.around(), statement)
}

#[tactic(auto, unfolding(crate::specs::Statements::of_next, vhdl_names_checker::specs::Progress::walk))]
fn check_next(checker: &mut Checker<'_>, statement: &Jump) -> Result<ResolvedBody, AllocError>
    ensures walk { OnOk result (checker.new ≡ walk (spec.of_next statement.now).events checker.old) }
    ensures meaning { IfOk result (λ v. v ≡ (spec.of_next statement.now).at checker.old) }
{
    let resolved = jump_resolved(checker.alloc(), checker.text(), checker.around(), statement)?;
    checker
        .jumped(statement)
        .and(Ok(ResolvedBody::Next(resolved)))
}

#[tactic(auto, unfolding(crate::specs::Statements::of_exit, vhdl_names_checker::specs::Progress::walk))]
fn check_exit(checker: &mut Checker<'_>, statement: &Jump) -> Result<ResolvedBody, AllocError>
    ensures walk { OnOk result (checker.new ≡ walk (spec.of_exit statement.now).events checker.old) }
    ensures meaning { IfOk result (λ v. v ≡ (spec.of_exit statement.now).at checker.old) }
{
    let resolved = jump_resolved(checker.alloc(), checker.text(), checker.around(), statement)?;
    checker
        .jumped(statement)
        .and(Ok(ResolvedBody::Exit(resolved)))
}

// ---- statements with others in them

/// Goes along statements, in the order of the text.
#[cycle(statement)]
#[tactic(auto, unfolding(crate::specs::Statements::of_statements))]
pub(crate) fn check_statements(
    checker: &mut Checker<'_>,
    statements: &[Statement],
) -> Result<Items<ResolvedStatement>, AllocError>
    ensures walk { OnOk result (checker.new ≡ walk (events_of (spec.of_statements statements.now)) checker.old) }
    ensures meaning { IfOk result (λ v. v ≡ all_at (spec.of_statements statements.now) checker.old) }
{
    let mut resolved = Items::new(checker.alloc());
    for statement in statements {
        resolved.push(check_statement(checker, statement)?)?;
    }
    Ok(resolved)
}

#[cycle(statement)]
fn check_statement(
    checker: &mut Checker<'_>,
    statement: &Statement,
) -> Result<ResolvedStatement, AllocError>
    ensures walk { OnOk result (checker.new ≡ walk (spec.of_statement statement.now).events checker.old) }
    ensures meaning { IfOk result (λ v. v ≡ (spec.of_statement statement.now).at checker.old) }
{
    let label = check_label(checker, &statement.label)?;
    let body = check_body(checker, &statement.label, &statement.body)?;
    Ok(ResolvedStatement {
        line: statement.line,
        label,
        body,
    })
}

#[cycle(statement)]
fn check_body(
    checker: &mut Checker<'_>,
    label: &Option<Token>,
    body: &Body,
) -> Result<ResolvedBody, AllocError>
    ensures walk { OnOk result (checker.new ≡ walk (spec.of_body body.now label.now).events checker.old) }
    ensures meaning { IfOk result (λ v. v ≡ (spec.of_body body.now label.now).at checker.old) }
{
    match body {
        Body::Wait(statement) => check_wait(checker, statement),
        Body::Assert(statement) => check_assertion(checker, statement),
        Body::Report(statement) => check_report(checker, statement),
        Body::Signal(statement) => check_assignment(checker, statement),
        Body::Variable(statement) => check_variable(checker, statement),
        Body::If(statement) => Ok(ResolvedBody::If(check_if(checker, label, statement)?)),
        Body::Case(statement) => Ok(ResolvedBody::Case(check_case(checker, label, statement)?)),
        Body::Loop(statement) => Ok(ResolvedBody::Loop(check_loop(checker, label, statement)?)),
        Body::Next(statement) => check_next(checker, statement),
        Body::Exit(statement) => check_exit(checker, statement),
        Body::Null => Ok(ResolvedBody::Null),
    }
}

#[cycle(statement)]
fn check_if(
    checker: &mut Checker<'_>,
    label: &Option<Token>,
    statement: &If,
) -> Result<ResolvedIf, AllocError>
    ensures walk { OnOk result (checker.new ≡ walk (spec.of_if statement.now label.now).events checker.old) }
    ensures meaning { IfOk result (λ v. v ≡ (spec.of_if statement.now label.now).at checker.old) }
{
    let condition = condition(checker, &statement.condition)?;
    let condition = Held::new(condition);
    checker.tested(&statement.condition)?;
    let statements = check_statements(checker, statement.statements.as_slice())?;
    let elsifs = check_elsifs(checker, statement.elsifs.as_slice())?;
    let otherwise = check_statements(checker, statement.otherwise.as_slice())?;
    checker.end_if(label, &statement.end_name)?;
    Ok(ResolvedIf {
        condition: condition.into_inner(),
        statements,
        elsifs,
        otherwise,
    })
}

#[cycle(statement)]
fn check_elsifs(
    checker: &mut Checker<'_>,
    elsifs: &[Elsif],
) -> Result<Items<ResolvedElsif>, AllocError>
    ensures walk { OnOk result (checker.new ≡ walk (events_of (map spec.of_elsif elsifs.now)) checker.old) }
    ensures meaning { IfOk result (λ v. v ≡ all_at (map spec.of_elsif elsifs.now) checker.old) }
{
    let mut resolved = Items::new(checker.alloc());
    for elsif in elsifs {
        resolved.push(check_elsif(checker, elsif)?)?;
    }
    Ok(resolved)
}

#[cycle(statement)]
fn check_elsif(checker: &mut Checker<'_>, elsif: &Elsif) -> Result<ResolvedElsif, AllocError>
    ensures walk { OnOk result (checker.new ≡ walk (spec.of_elsif elsif.now).events checker.old) }
    ensures meaning { IfOk result (λ v. v ≡ (spec.of_elsif elsif.now).at checker.old) }
{
    let condition = condition(checker, &elsif.condition)?;
    let condition = Held::new(condition);
    checker.tested(&elsif.condition)?;
    let statements = check_statements(checker, elsif.statements.as_slice())?;
    Ok(ResolvedElsif {
        condition: condition.into_inner(),
        statements,
    })
}

#[cycle(statement)]
fn check_case(
    checker: &mut Checker<'_>,
    label: &Option<Token>,
    statement: &Case,
) -> Result<ResolvedCase, AllocError>
    ensures walk { OnOk result (checker.new ≡ walk (spec.of_case statement.now label.now).events checker.old) }
    ensures meaning { IfOk result (λ v. v ≡ (spec.of_case statement.now label.now).at checker.old) }
{
    checker.chosen(&statement.subject)?;
    let subject = subject(checker, &statement.subject)?;
    let subject = Held::new(subject);
    let arms = check_arms(checker, statement.arms.as_slice())?;
    checker.end_case(label, &statement.end_name)?;
    Ok(ResolvedCase {
        subject: subject.into_inner(),
        arms,
    })
}

#[cycle(statement)]
fn check_arms(checker: &mut Checker<'_>, arms: &[Arm]) -> Result<Items<ResolvedArm>, AllocError>
    ensures walk { OnOk result (checker.new ≡ walk (events_of (with_last (map spec.of_arm arms.now))) checker.old) }
    ensures meaning { IfOk result (λ v. v ≡ all_at (with_last (map spec.of_arm arms.now)) checker.old) }
{
    let mut resolved = Items::new(checker.alloc());
    for (position, arm) in arms.iter().enumerate() {
        resolved.push(check_arm(checker, position + 1 == arms.len(), arm)?)?;
    }
    Ok(resolved)
}

#[cycle(statement)]
fn check_arm(checker: &mut Checker<'_>, is_last: bool, arm: &Arm) -> Result<ResolvedArm, AllocError>
    ensures walk { OnOk result (checker.new ≡ walk (spec.of_arm arm.now is_last).events checker.old) }
    ensures meaning { IfOk result (λ v. v ≡ (spec.of_arm arm.now is_last).at checker.old) }
{
    let choices = choices(checker, arm.choices.as_slice())?;
    checker.arm(is_last, arm.choices.as_slice())?;
    let statements = check_statements(checker, arm.statements.as_slice())?;
    Ok(ResolvedArm {
        choices,
        statements,
    })
}

#[cycle(statement)]
fn check_loop(
    checker: &mut Checker<'_>,
    label: &Option<Token>,
    statement: &Loop,
) -> Result<ResolvedLoop, AllocError>
    ensures walk { OnOk result (checker.new ≡ walk (spec.of_loop statement.now label.now).events checker.old) }
    ensures meaning { IfOk result (λ v. v ≡ (spec.of_loop statement.now label.now).at checker.old) }
{
    let scheme = scheme(checker, &statement.scheme)?;
    checker.looped(label, &statement.scheme)?;
    let statements = check_statements(checker, statement.statements.as_slice())?;
    checker.end_loop(&statement.scheme, label, &statement.end_name)?;
    Ok(ResolvedLoop { scheme, statements })
}
