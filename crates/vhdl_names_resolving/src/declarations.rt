//! What declarations mean.

ghost use Rattle.std.specs.Prelude.{◌≡◌, IfOk, map};
ghost use Rattle.std.specs.Option.{option_copied};
ghost use Rattle.vhdl_names_checker.specs.Declaring.{next_number};
ghost use Rattle.vhdl_names_checker.specs.Telling.{seen_here};
ghost use Rattle.vhdl_names_meaning.specs.Ranges.{range_at};
ghost use Rattle.vhdl_names_resolving.specs.Declarations as spec;
ghost use Rattle.vhdl_names_resolving.specs.Values.{range_here};
ghost use Rattle.vhdl_names_rules.specs.Subtypes as subtypes;
ghost use Rattle.vhdl_tokens.specs.Meaning.{span};

use crate::values::{optional_at, range_here, value_at};
use sqlite_items::Items;
use std::alloc::{AllocError, Global};
use vhdl_names_checker::{Surroundings, type_or};
use vhdl_names_meaning::range_at;
use vhdl_names_rules::{mark_in, with_index};
use vhdl_names_typing::look;
use vhdl_tokens::{Token, span};
use vhdl_tree::{
    AttributeSpecification, Bounds, Constraint, Expr, Subtype, SubtypeDeclaration, TypeDeclaration,
};
use vhdl_units::{
    BaseType, Class, Declared, Mark, RangeValue, ResolvedConstraint, ResolvedDeclaration,
    ResolvedObjects, ResolvedSubtype, ResolvedType,
};

// ---- names

/// A token as it is written.
pub fn spelled(alloc: Global, text: &[u8], token: &Token) -> Result<Items<u8>, AllocError>
    ensures { IfOk result (λ v. v ≡ span text.now token.now) }
{
    Items::from_slice(alloc, span(text, token))
}

fn all_spelled(alloc: Global, text: &[u8], tokens: &[Token]) -> Result<Items<Items<u8>>, AllocError>
    ensures { IfOk result (λ v. v ≡ map (span text.now) tokens.now) }
{
    let mut all = Items::new(alloc);
    for token in tokens {
        all.push(spelled(alloc, text, token)?)?;
    }
    Ok(all)
}

/// What is declared by a name of this number.
#[tactic(auto, unfolding(crate::specs::Declarations::declared))]
pub fn declared(
    alloc: Global,
    text: &[u8],
    number: usize,
    token: &Token,
) -> Result<Declared, AllocError>
    ensures { IfOk result (λ v. v ≡ spec.declared text.now number token.now) }
{
    let name = spelled(alloc, text, token)?;
    Ok(Declared {
        number,
        name,
        line: token.line,
    })
}

// What is declared by names, one number after the other.
#[tactic(auto, unfolding(crate::specs::Declarations::all_declared, vhdl_names_checker::specs::Declaring::standard_marks))]
fn all_declared(
    alloc: Global,
    text: &[u8],
    around: &Surroundings,
    tokens: &[Token],
) -> Result<Items<Declared>, AllocError>
    ensures { IfOk result (λ v. v ≡ spec.all_declared text.now (next_number around.now) tokens.now) }
{
    let first = around.next_number();
    let mut all = Items::new(alloc);
    for (offset, token) in tokens.iter().enumerate() {
        all.push(declared(alloc, text, first + offset, token)?)?;
    }
    Ok(all)
}

/// What the label of a statement declares here, if there is one (11.1, 12.3).
#[tactic(auto, unfolding(crate::specs::Declarations::label_here))]
pub fn label_here(
    alloc: Global,
    text: &[u8],
    around: &Surroundings,
    label: &Option<Token>,
) -> Result<Option<Declared>, AllocError>
    ensures { IfOk result (λ v. v ≡ spec.label_here text.now around.now label.now) }
{
    match label {
        None => Ok(None),
        Some(token) => Ok(Some(declared(alloc, text, around.next_number(), token)?)),
    }
}

// ---- subtypes

// With bounds an array type is one that has bounds.
#[tactic(auto, unfolding(crate::specs::Declarations::narrowed))]
fn narrowed(mark: Option<Mark>, constraint: &Option<Constraint>) -> Option<Mark>
    ensures { result ≡ spec.narrowed mark constraint.now }
{
    match constraint {
        None => mark,
        Some(Constraint::Range(_)) => mark,
        Some(Constraint::Index(_)) => with_index(mark),
    }
}

fn bounds_at(
    alloc: Global,
    text: &[u8],
    around: &Surroundings,
    base: BaseType,
    bounds: &Bounds,
) -> Result<RangeValue, AllocError>
    ensures { IfOk result (λ v. v ≡ range_at base (range_here text.now around.now bounds.now)) }
{
    let range = range_here(alloc, text, around, bounds)?;
    range_at(alloc, base, range)
}

// The bounds of a scalar are of its type, those of an array of INTEGER.
#[tactic(auto, unfolding(crate::specs::Declarations::constraint_here))]
fn constraint_here(
    alloc: Global,
    text: &[u8],
    around: &Surroundings,
    base: BaseType,
    constraint: &Option<Constraint>,
) -> Result<Option<ResolvedConstraint>, AllocError>
    ensures { IfOk result (λ v. v ≡ spec.constraint_here text.now around.now base constraint.now) }
{
    match constraint {
        None => Ok(None),
        Some(Constraint::Range(bounds)) => {
            let bounds = bounds_at(alloc, text, around, base, bounds)?;
            Ok(Some(ResolvedConstraint::Range(bounds)))
        }
        Some(Constraint::Index(bounds)) => {
            let bounds = bounds_at(alloc, text, around, BaseType::Integer, bounds)?;
            Ok(Some(ResolvedConstraint::Index(bounds)))
        }
    }
}

#[tactic(auto, unfolding(crate::specs::Declarations::subtype_of))]
fn subtype_of(
    alloc: Global,
    text: &[u8],
    around: &Surroundings,
    mark: Option<Mark>,
    constraint: &Option<Constraint>,
) -> Result<ResolvedSubtype, AllocError>
    ensures { IfOk result (λ v. v ≡ spec.subtype_of text.now around.now mark constraint.now) }
{
    let bounds = constraint_here(alloc, text, around, type_or(mark), constraint)?;
    Ok(ResolvedSubtype {
        mark: narrowed(mark, constraint),
        constraint: bounds,
    })
}

// The subtype that a name denotes here.
#[tactic(auto, unfolding(vhdl_names_checker::specs::Telling::seen_here))]
fn mark_here(
    alloc: Global,
    text: &[u8],
    around: &Surroundings,
    token: &Token,
) -> Result<Option<Mark>, AllocError>
    ensures { IfOk result (λ v. v ≡ subtypes.mark_in (seen_here text.now around.now token.now)) }
{
    let entries = look(alloc, text, around.regions(), token)?;
    Ok(mark_in(&entries))
}

#[tactic(auto, unfolding(crate::specs::Declarations::subtype_resolved))]
fn subtype_resolved(
    alloc: Global,
    text: &[u8],
    around: &Surroundings,
    subtype: &Subtype,
) -> Result<ResolvedSubtype, AllocError>
    ensures { IfOk result (λ v. v ≡ spec.subtype_resolved text.now around.now subtype.now) }
{
    let mark = mark_here(alloc, text, around, &subtype.mark)?;
    subtype_of(alloc, text, around, mark, &subtype.constraint)
}

// ---- declarations

#[tactic(auto, unfolding(crate::specs::Declarations::objects_of))]
fn objects_of(
    alloc: Global,
    text: &[u8],
    around: &Surroundings,
    class: Class,
    names: &[Token],
    subtype: ResolvedSubtype,
    initial: Option<&Expr>,
) -> Result<ResolvedObjects, AllocError>
    ensures { IfOk result (λ v. v ≡ spec.objects_of text.now around.now class names.now subtype (option_copied initial.entry)) }
{
    let base = type_or(subtype.mark);
    let declared = all_declared(alloc, text, around, names)?;
    let initial = optional_at(alloc, text, around, base, initial)?;
    Ok(ResolvedObjects {
        class,
        declared,
        subtype,
        base,
        initial,
    })
}

/// What objects of one class are that are declared together here, with their value at the beginning or
/// without (6.4.2, 6.5).
#[tactic(auto, unfolding(crate::specs::Declarations::objects_resolved))]
pub fn objects_resolved(
    alloc: Global,
    text: &[u8],
    around: &Surroundings,
    class: Class,
    names: &[Token],
    subtype: &Subtype,
    initial: Option<&Expr>,
) -> Result<ResolvedObjects, AllocError>
    ensures { IfOk result (λ v. v ≡ spec.objects_resolved text.now around.now class names.now subtype.now (option_copied initial.entry)) }
{
    let subtype = subtype_resolved(alloc, text, around, subtype)?;
    objects_of(alloc, text, around, class, names, subtype, initial)
}

#[tactic(auto, unfolding(crate::specs::Declarations::type_resolved))]
fn type_resolved(
    alloc: Global,
    text: &[u8],
    around: &Surroundings,
    declaration: &TypeDeclaration,
) -> Result<ResolvedType, AllocError>
    ensures { IfOk result (λ v. v ≡ spec.type_resolved text.now around.now declaration.now) }
{
    let name = declared(alloc, text, around.next_number(), &declaration.name)?;
    let literals = all_spelled(alloc, text, declaration.literals.as_slice())?;
    Ok(ResolvedType {
        declared: name,
        literals,
    })
}

/// What an enumeration type is that is declared here (5.2.2).
#[tactic(auto, unfolding(crate::specs::Declarations::enumeration_resolved))]
pub fn enumeration_resolved(
    alloc: Global,
    text: &[u8],
    around: &Surroundings,
    declaration: &TypeDeclaration,
) -> Result<ResolvedDeclaration, AllocError>
    ensures { IfOk result (λ v. v ≡ spec.enumeration_resolved text.now around.now declaration.now) }
{
    let enumeration = type_resolved(alloc, text, around, declaration)?;
    Ok(ResolvedDeclaration::Type(enumeration))
}

/// What a subtype is that is declared here (6.3).
#[tactic(auto, unfolding(crate::specs::Declarations::subtyped_resolved))]
pub fn subtyped_resolved(
    alloc: Global,
    text: &[u8],
    around: &Surroundings,
    declaration: &SubtypeDeclaration,
) -> Result<ResolvedDeclaration, AllocError>
    ensures { IfOk result (λ v. v ≡ spec.subtyped_resolved text.now around.now declaration.now) }
{
    let name = declared(alloc, text, around.next_number(), &declaration.name)?;
    let subtype = subtype_resolved(alloc, text, around, &declaration.subtype)?;
    Ok(ResolvedDeclaration::Subtype(name, subtype))
}

/// What the attribute FOREIGN of an architecture says (7.2, 20.2).
#[tactic(auto, unfolding(crate::specs::Declarations::attribute_resolved))]
pub fn attribute_resolved(
    alloc: Global,
    text: &[u8],
    around: &Surroundings,
    specification: &AttributeSpecification,
) -> Result<ResolvedDeclaration, AllocError>
    ensures { IfOk result (λ v. v ≡ spec.attribute_resolved text.now around.now specification.now) }
{
    let value = value_at(alloc, text, around, BaseType::String, &specification.value)?;
    Ok(ResolvedDeclaration::Foreign(value))
}
