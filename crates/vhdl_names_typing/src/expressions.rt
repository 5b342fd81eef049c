//! Operators and aggregates.

ghost use Rattle.std.specs.Prelude.{◌≡◌, ◌++◌, IfOk, OnOk, map};
ghost use Rattle.std.specs.List.{flat_map, list_all, list_any};
ghost use Rattle.vhdl_names_operators.specs.Literals.{aggregates};
ghost use Rattle.vhdl_names_typing.specs.Expressions as spec;
ghost use Rattle.vhdl_names_typing.specs.Faults.{break_if, typing_of};
ghost use Rattle.vhdl_units.specs.declared.fault.Rule.TheVariants as rule;

use crate::faults::{append, asks, break_if, without_bounds};
use crate::told::{ChoiceTold, Form, ItemTold, Told};
use sqlite_items::Items;
use std::alloc::{AllocError, Global};
use vhdl_names_operators::{all_arrays, narrow, relates, results, results_from};
use vhdl_names_overloads::Types;
use vhdl_tree::{Operator, Unary};
use vhdl_units::{BaseType, Fault, Rule};

/// An expression as an operand, index, bound or argument: its place gives no bounds to an aggregate.
#[tactic(auto, unfolding(crate::specs::Faults::typing_of))]
fn without_place(alloc: Global, mut told: Told) -> Result<Told, AllocError>
    ensures { IfOk result (λ v. v ≡ record told { typing = typing_of told }) }
{
    let more = without_bounds(alloc, &told)?;
    told.typing.append(more)?;
    Ok(told)
}

/// An operator before one operand (9.2).
#[tactic(auto, unfolding(crate::specs::Expressions::unary_told))]
pub fn unary_told(
    alloc: Global,
    place: u32,
    operator: Unary,
    operand: Told,
) -> Result<Told, AllocError>
    ensures { IfOk result (λ v. v ≡ spec.unary_told place operator operand) }
{
    let mut told = without_place(alloc, operand)?;
    let types = results_from(alloc, operator, &told.types)?;
    told.retype(types);
    told.place = place;
    told.form = Form::Value;
    Ok(told)
}

/// The first operand of operators that begin at this place.
#[tactic(auto, unfolding(crate::specs::Expressions::operand))]
pub fn operand(alloc: Global, place: u32, first: Told) -> Result<Told, AllocError>
    ensures { IfOk result (λ v. v ≡ spec.operand place first) }
{
    let mut told = without_place(alloc, first)?;
    told.place = place;
    told.form = Form::Value;
    Ok(told)
}

/// Whether an operator is a relation (9.2.3).
#[tactic(auto, unfolding(crate::specs::Expressions::is_relation))]
pub fn is_relation(operator: Operator) -> bool
    ensures { result ≡ spec.is_relation operator }
{
    match operator {
        Operator::Equal
        | Operator::NotEqual
        | Operator::Less
        | Operator::LessEqual
        | Operator::Greater
        | Operator::GreaterEqual => true,
        _ => false,
    }
}

/// Whether the operator is a relation whose sides have no type that one of them has alone.
#[tactic(auto, unfolding(crate::specs::Expressions::is_unrelated))]
fn is_unrelated(operator: Operator, left: &Types, right: &Types) -> bool
    ensures { result ≡ spec.is_unrelated operator left.now right.now }
{
    is_relation(operator) && !relates(operator, left, right)
}

/// Two operands side by side.
#[tactic(auto, unfolding(crate::specs::Expressions::beside, crate::specs::Faults::typing_of))]
fn beside(alloc: Global, mut left: Told, right: Told) -> Result<Told, AllocError>
    ensures { IfOk result (λ v. v ≡ spec.beside left right) }
{
    let right = without_place(alloc, right)?;
    left.is_static = left.is_static && right.is_static;
    left.reads = left.reads || right.reads;
    let (names, typing) = right.into_faults();
    left.names.append(names)?;
    left.typing.append(typing)?;
    Ok(left)
}

/// Operands, and the fault of a relation that doesn't fit them.
fn related(alloc: Global, unrelated: bool, mut told: Told) -> Result<Told, AllocError>
    ensures { IfOk result (λ v. v ≡ record told { typing = told.typing ++ break_if unrelated told.names told.place rule.Type }) }
{
    let fault = break_if(
        alloc,
        unrelated,
        told.names.as_slice(),
        told.place,
        Rule::Type,
    )?;
    told.typing.append(fault)?;
    Ok(told)
}

/// One more operand behind others, from left to right.
#[tactic(auto, unfolding(crate::specs::Expressions::joined, crate::specs::Expressions::operated, crate::specs::Expressions::beside))]
pub fn joined(
    alloc: Global,
    mut left: Told,
    operator: Operator,
    right: Told,
) -> Result<Told, AllocError>
    ensures { IfOk result (λ v. v ≡ spec.joined left operator right) }
{
    let unrelated = is_unrelated(operator, &left.types, &right.types);
    let types = results(alloc, operator, &left.types, &right.types)?;
    left.retype(types);
    related(alloc, unrelated, beside(alloc, left, right)?)
}

/// Adds what is asked of an index.
#[tactic(auto, unfolding(crate::specs::Expressions::index_typing))]
fn push_index_typing(
    alloc: Global,
    faults: &mut Items<Fault>,
    index: &Told,
) -> Result<(), AllocError>
    ensures { OnOk result (faults.new ≡ faults.old ++ spec.index_typing index.now) }
{
    push_typing(alloc, faults, index)?;
    faults.append(asks(alloc, BaseType::Integer, index)?)
}

/// Adds the breaks in an operand, an index, a bound or an argument.
#[tactic(auto, unfolding(crate::specs::Faults::typing_of))]
fn push_typing(alloc: Global, faults: &mut Items<Fault>, told: &Told) -> Result<(), AllocError>
    ensures { OnOk result (faults.new ≡ faults.old ++ typing_of told.now) }
{
    push_all(faults, told.typing.as_slice())?;
    faults.append(without_bounds(alloc, told)?)
}

fn push_all(faults: &mut Items<Fault>, more: &[Fault]) -> Result<(), AllocError>
    ensures { OnOk result (faults.new ≡ faults.old ++ more.now) }
{
    for fault in more {
        faults.push(*fault)?;
    }
    Ok(())
}

#[tactic(auto, unfolding(crate::specs::Expressions::choice_names))]
fn push_choice_names(faults: &mut Items<Fault>, choice: &ChoiceTold) -> Result<(), AllocError>
    ensures { OnOk result (faults.new ≡ faults.old ++ spec.choice_names choice.now) }
{
    match choice {
        ChoiceTold::Value(told) => push_all(faults, told.names.as_slice()),
        ChoiceTold::Range(left, right) => {
            push_all(faults, left.names.as_slice())?;
            push_all(faults, right.names.as_slice())
        }
        ChoiceTold::Others(_) => Ok(()),
    }
}

#[tactic(auto, unfolding(crate::specs::Expressions::choice_typing))]
fn push_choice_typing(
    alloc: Global,
    faults: &mut Items<Fault>,
    choice: &ChoiceTold,
) -> Result<(), AllocError>
    ensures { OnOk result (faults.new ≡ faults.old ++ spec.choice_typing choice.now) }
{
    match choice {
        ChoiceTold::Value(told) => push_index_typing(alloc, faults, told),
        ChoiceTold::Range(left, right) => {
            push_index_typing(alloc, faults, left)?;
            push_index_typing(alloc, faults, right)
        }
        ChoiceTold::Others(_) => Ok(()),
    }
}

/// Whether a choice is globally static (9.4.3).
#[tactic(auto, unfolding(crate::specs::Expressions::choice_is_static))]
pub fn choice_is_static(choice: &ChoiceTold) -> bool
    ensures { result ≡ spec.choice_is_static choice.now }
{
    match choice {
        ChoiceTold::Value(told) => told.is_static,
        ChoiceTold::Range(left, right) => left.is_static && right.is_static,
        ChoiceTold::Others(_) => true,
    }
}

/// Whether a choice hangs on the value of a signal or variable.
#[tactic(auto, unfolding(crate::specs::Expressions::choice_reads))]
fn choice_reads(choice: &ChoiceTold) -> bool
    ensures { result ≡ spec.choice_reads choice.now }
{
    match choice {
        ChoiceTold::Value(told) => told.reads,
        ChoiceTold::Range(left, right) => left.reads || right.reads,
        ChoiceTold::Others(_) => false,
    }
}

/// Whether a choice is `others`.
#[tactic(auto, unfolding(crate::specs::Expressions::is_others))]
pub fn is_others(choice: &ChoiceTold) -> bool
    ensures { result ≡ spec.is_others choice.now }
{
    match choice {
        ChoiceTold::Others(_) => true,
        _ => false,
    }
}

fn push_choices_names(faults: &mut Items<Fault>, choices: &[ChoiceTold]) -> Result<(), AllocError>
    ensures { OnOk result (faults.new ≡ faults.old ++ flat_map spec.choice_names choices.now) }
{
    for choice in choices {
        push_choice_names(faults, choice)?;
    }
    Ok(())
}

fn push_choices_typing(
    alloc: Global,
    faults: &mut Items<Fault>,
    choices: &[ChoiceTold],
) -> Result<(), AllocError>
    ensures { OnOk result (faults.new ≡ faults.old ++ flat_map spec.choice_typing choices.now) }
{
    for choice in choices {
        push_choice_typing(alloc, faults, choice)?;
    }
    Ok(())
}

#[tactic(auto, unfolding(crate::specs::Expressions::item_names))]
fn push_item_names(faults: &mut Items<Fault>, item: &ItemTold) -> Result<(), AllocError>
    ensures { OnOk result (faults.new ≡ faults.old ++ spec.item_names item.now) }
{
    push_choices_names(faults, item.choices.as_slice())?;
    push_all(faults, item.value.names.as_slice())
}

#[tactic(auto, unfolding(crate::specs::Expressions::item_typing))]
fn push_item_typing(
    alloc: Global,
    faults: &mut Items<Fault>,
    item: &ItemTold,
) -> Result<(), AllocError>
    ensures { OnOk result (faults.new ≡ faults.old ++ spec.item_typing item.now) }
{
    push_choices_typing(alloc, faults, item.choices.as_slice())?;
    push_typing(alloc, faults, &item.value)
}

#[tactic(auto, unfolding(crate::specs::Expressions::has_static_choices))]
fn has_static_choices(item: &ItemTold) -> bool
    ensures { result ≡ spec.has_static_choices item.now }
{
    item.choices.as_slice().iter().all(choice_is_static)
}

#[tactic(auto, unfolding(crate::specs::Expressions::item_is_static))]
fn item_is_static(item: &ItemTold) -> bool
    ensures { result ≡ spec.item_is_static item.now }
{
    has_static_choices(item) && item.value.is_static
}

fn choices_read(choices: &[ChoiceTold]) -> bool
    ensures { result ≡ list_any spec.choice_reads choices.now }
{
    choices.iter().any(choice_reads)
}

#[tactic(auto, unfolding(crate::specs::Expressions::item_reads))]
fn item_reads(item: &ItemTold) -> bool
    ensures { result ≡ spec.item_reads item.now }
{
    choices_read(item.choices.as_slice()) || item.value.reads
}

#[tactic(auto, unfolding(crate::specs::Expressions::is_named))]
fn is_named(item: &ItemTold) -> bool
    ensures { result ≡ spec.is_named item.now }
{
    item.choices.len() != 0
}

#[tactic(auto, unfolding(crate::specs::Expressions::has_others_choice))]
fn has_others_choice(item: &ItemTold) -> bool
    ensures { result ≡ spec.has_others_choice item.now }
{
    item.choices.as_slice().iter().any(is_others)
}

fn are_others(choices: &[ChoiceTold]) -> bool
    ensures { result ≡ list_all spec.is_others choices.now }
{
    choices.iter().all(is_others)
}

#[tactic(auto, unfolding(crate::specs::Expressions::has_other_choice))]
fn has_other_choice(item: &ItemTold) -> bool
    ensures { result ≡ spec.has_other_choice item.now }
{
    !are_others(item.choices.as_slice())
}

fn some_are_named(items: &[ItemTold]) -> bool
    ensures { result ≡ list_any spec.is_named items.now }
{
    items.iter().any(is_named)
}

fn all_are_named(items: &[ItemTold]) -> bool
    ensures { result ≡ list_all spec.is_named items.now }
{
    items.iter().all(is_named)
}

/// Whether elements with choices and elements without stand in one aggregate.
#[tactic(auto, unfolding(crate::specs::Expressions::is_mixed))]
fn is_mixed(items: &[ItemTold]) -> bool
    ensures { result ≡ spec.is_mixed items.now }
{
    some_are_named(items) && !all_are_named(items)
}

fn all_have_static_choices(items: &[ItemTold]) -> bool
    ensures { result ≡ list_all spec.has_static_choices items.now }
{
    items.iter().all(has_static_choices)
}

#[tactic(auto, unfolding(crate::specs::Expressions::is_malformed))]
fn is_malformed(items: &[ItemTold]) -> bool
    ensures { result ≡ spec.is_malformed items.now }
{
    is_mixed(items) || !all_have_static_choices(items)
}

fn some_have_others(items: &[ItemTold]) -> bool
    ensures { result ≡ list_any spec.has_others_choice items.now }
{
    items.iter().any(has_others_choice)
}

fn some_have_other_choices(items: &[ItemTold]) -> bool
    ensures { result ≡ list_any spec.has_other_choice items.now }
{
    items.iter().any(has_other_choice)
}

#[tactic(auto, unfolding(crate::specs::Expressions::aggregate_form))]
fn aggregate_form(items: &[ItemTold]) -> Form
    ensures { result ≡ spec.aggregate_form items.now }
{
    if some_have_others(items) {
        Form::Others(some_have_other_choices(items))
    } else {
        Form::Value
    }
}

#[tactic(auto, unfolding(crate::specs::Expressions::aggregate_names))]
fn aggregate_names(alloc: Global, items: &[ItemTold]) -> Result<Items<Fault>, AllocError>
    ensures { IfOk result (λ v. v ≡ spec.aggregate_names items.now) }
{
    let mut faults = Items::new(alloc);
    for item in items {
        push_item_names(&mut faults, item)?;
    }
    Ok(faults)
}

fn items_typing(alloc: Global, items: &[ItemTold]) -> Result<Items<Fault>, AllocError>
    ensures { IfOk result (λ v. v ≡ flat_map spec.item_typing items.now) }
{
    let mut faults = Items::new(alloc);
    for item in items {
        push_item_typing(alloc, &mut faults, item)?;
    }
    Ok(faults)
}

/// The types that an aggregate can have.
#[tactic(auto, unfolding(crate::specs::Expressions::item_types, vhdl_names_operators::specs::Literals::aggregates))]
fn aggregate_types(alloc: Global, items: &[ItemTold]) -> Result<Types, AllocError>
    ensures { IfOk result (λ v. v ≡ aggregates (map spec.item_types items.now)) }
{
    let mut types = all_arrays(alloc)?;
    for item in items {
        types = narrow(alloc, types.as_slice(), &item.value.types)?;
    }
    Ok(Types::from_items(types))
}

fn all_are_static(items: &[ItemTold]) -> bool
    ensures { result ≡ list_all spec.item_is_static items.now }
{
    items.iter().all(item_is_static)
}

fn some_read(items: &[ItemTold]) -> bool
    ensures { result ≡ list_any spec.item_reads items.now }
{
    items.iter().any(item_reads)
}

/// An aggregate of these elements (9.3.3).
#[tactic(auto, unfolding(crate::specs::Expressions::aggregate_told, crate::specs::Expressions::malformed))]
pub fn aggregate_told(alloc: Global, place: u32, items: &[ItemTold]) -> Result<Told, AllocError>
    ensures { IfOk result (λ v. v ≡ spec.aggregate_told place items.now) }
{
    let names = aggregate_names(alloc, items)?;
    let inner = items_typing(alloc, items)?;
    let broken = is_malformed(items);
    let own = break_if(alloc, broken, names.as_slice(), place, Rule::Aggregate)?;
    let typing = append(inner, own)?;
    let types = aggregate_types(alloc, items)?;
    Ok(Told {
        place,
        names,
        typing,
        types,
        is_static: all_are_static(items),
        reads: some_read(items),
        form: aggregate_form(items),
    })
}
