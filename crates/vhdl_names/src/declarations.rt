//! Declarations of architectures and processes, along a design file.

ghost use Rattle.std.specs.Prelude.{◌≡◌, IfOk, OnOk, map};
ghost use Rattle.std.specs.Option.{option_copied};
ghost use Rattle.vhdl_names_checker.specs.Progress.{walk};
ghost use Rattle.vhdl_names.specs.Parts.{all_at, events_of};
ghost use Rattle.vhdl_names.specs.Statements.{of_attribute, of_declaration, of_declarations, of_enumeration, of_objects, of_subtyped, object_declaration};

use sqlite_items::Items;
use std::alloc::AllocError;
use vhdl_names_checker::Checker;
use vhdl_names_resolving::{
    attribute_resolved, enumeration_resolved, objects_resolved, subtyped_resolved,
};
use vhdl_tokens::Token;
use vhdl_tree::{
    AttributeSpecification, Declaration, Expr, Subtype, SubtypeDeclaration, TypeDeclaration,
};
use vhdl_units::{Class, ResolvedDeclaration, ResolvedObjects};

/// A declaration of objects of one class.
#[tactic(auto, unfolding(crate::specs::Statements::of_objects, vhdl_names_checker::specs::Progress::walk))]
pub(crate) fn check_objects(
    checker: &mut Checker<'_>,
    class: Class,
    names: &[Token],
    subtype: &Subtype,
    initial: Option<&Expr>,
) -> Result<ResolvedObjects, AllocError>
    ensures walk { OnOk result (checker.new ≡ walk (of_objects class names.now subtype.now (option_copied initial.entry)).events checker.old) }
    ensures meaning { IfOk result (λ v. v ≡ (of_objects class names.now subtype.now (option_copied initial.entry)).at checker.old) }
{
    let resolved = objects_resolved(
        checker.alloc(),
        checker.text(),
        checker.around(),
        class,
        names,
        subtype,
        initial,
    )?;
    checker
        .objects(class, names, subtype, initial)
        .and(Ok(resolved))
}

#[tactic(auto, unfolding(crate::specs::Statements::object_declaration))]
fn check_object_declaration(
    checker: &mut Checker<'_>,
    class: Class,
    names: &[Token],
    subtype: &Subtype,
    initial: Option<&Expr>,
) -> Result<ResolvedDeclaration, AllocError>
    ensures walk { OnOk result (checker.new ≡ walk (object_declaration (of_objects class names.now subtype.now (option_copied initial.entry))).events checker.old) }
    ensures meaning { IfOk result (λ v. v ≡ (object_declaration (of_objects class names.now subtype.now (option_copied initial.entry))).at checker.old) }
{
    let objects = check_objects(checker, class, names, subtype, initial)?;
    Ok(ResolvedDeclaration::Objects(objects))
}

#[tactic(auto, unfolding(crate::specs::Statements::of_enumeration, vhdl_names_checker::specs::Progress::walk))]
fn check_enumeration(
    checker: &mut Checker<'_>,
    declaration: &TypeDeclaration,
) -> Result<ResolvedDeclaration, AllocError>
    ensures walk { OnOk result (checker.new ≡ walk (of_enumeration declaration.now).events checker.old) }
    ensures meaning { IfOk result (λ v. v ≡ (of_enumeration declaration.now).at checker.old) }
{
    let resolved = enumeration_resolved(
        checker.alloc(),
        checker.text(),
        checker.around(),
        declaration,
    )?;
    checker.enumeration(declaration).and(Ok(resolved))
}

#[tactic(auto, unfolding(crate::specs::Statements::of_subtyped, vhdl_names_checker::specs::Progress::walk))]
fn check_subtyped(
    checker: &mut Checker<'_>,
    declaration: &SubtypeDeclaration,
) -> Result<ResolvedDeclaration, AllocError>
    ensures walk { OnOk result (checker.new ≡ walk (of_subtyped declaration.now).events checker.old) }
    ensures meaning { IfOk result (λ v. v ≡ (of_subtyped declaration.now).at checker.old) }
{
    let resolved = subtyped_resolved(
        checker.alloc(),
        checker.text(),
        checker.around(),
        declaration,
    )?;
    checker.subtyped(declaration).and(Ok(resolved))
}

#[tactic(auto, unfolding(crate::specs::Statements::of_attribute, vhdl_names_checker::specs::Progress::walk))]
fn check_attribute(
    checker: &mut Checker<'_>,
    declaration: &AttributeSpecification,
) -> Result<ResolvedDeclaration, AllocError>
    ensures walk { OnOk result (checker.new ≡ walk (of_attribute declaration.now).events checker.old) }
    ensures meaning { IfOk result (λ v. v ≡ (of_attribute declaration.now).at checker.old) }
{
    let resolved = attribute_resolved(
        checker.alloc(),
        checker.text(),
        checker.around(),
        declaration,
    )?;
    checker.attributed(declaration).and(Ok(resolved))
}

#[tactic(auto, unfolding(crate::specs::Statements::of_declaration))]
fn check_declaration(
    checker: &mut Checker<'_>,
    declaration: &Declaration,
) -> Result<ResolvedDeclaration, AllocError>
    ensures walk { OnOk result (checker.new ≡ walk (of_declaration declaration.now).events checker.old) }
    ensures meaning { IfOk result (λ v. v ≡ (of_declaration declaration.now).at checker.old) }
{
    match declaration {
        Declaration::Type(d) => check_enumeration(checker, d),
        Declaration::Subtype(d) => check_subtyped(checker, d),
        Declaration::Constant(d) => check_object_declaration(
            checker,
            Class::Constant,
            d.names.as_slice(),
            &d.subtype,
            Some(&d.value),
        ),
        Declaration::Signal(d) => check_object_declaration(
            checker,
            Class::Signal,
            d.names.as_slice(),
            &d.subtype,
            d.initial.as_ref(),
        ),
        Declaration::Variable(d) => check_object_declaration(
            checker,
            Class::Variable,
            d.names.as_slice(),
            &d.subtype,
            d.initial.as_ref(),
        ),
        Declaration::Attribute(specification) => check_attribute(checker, specification),
    }
}

/// Goes along declarations, in the order of the text.
#[tactic(auto, unfolding(crate::specs::Statements::of_declarations))]
pub(crate) fn check_declarations(
    checker: &mut Checker<'_>,
    declarations: &[Declaration],
) -> Result<Items<ResolvedDeclaration>, AllocError>
    ensures walk { OnOk result (checker.new ≡ walk (events_of (of_declarations declarations.now)) checker.old) }
    ensures meaning { IfOk result (λ v. v ≡ all_at (of_declarations declarations.now) checker.old) }
{
    let mut resolved = Items::new(checker.alloc());
    for declaration in declarations {
        resolved.push(check_declaration(checker, declaration)?)?;
    }
    Ok(resolved)
}
