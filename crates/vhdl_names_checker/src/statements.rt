//! Loops, `next` and `exit`.

ghost use Rattle.std.specs.Prelude.{◌≡◌, IfOk, OnOk, string_bytes};
ghost use Rattle.std.specs.Option.{option_map};
ghost use Rattle.vhdl_tree.specs.declared.statements.Scheme.TheVariants as scheme_of;
ghost use Rattle.vhdl_names_checker.specs.After as after;
ghost use Rattle.vhdl_names_checker.specs.Faults as spec;
ghost use Rattle.vhdl_names_checker.specs.Telling as telling;
ghost use Rattle.vhdl_names_rules.specs.Subtypes as rules;

use crate::declaring::object_numbered;
use crate::surroundings::{Label, Surroundings};
use crate::telling::{bounds_here, expression};
use sqlite_items::Items;
use std::alloc::{AllocError, Global};
use vhdl_names_rules::{loop_range, loop_type, tested};
use vhdl_names_scope::word;
use vhdl_names_typing::{BoundsTold, literal_bounds};
use vhdl_tokens::Token;
use vhdl_tree::{Bounds, Jump, Scheme};
use vhdl_units::{BaseType, Class, Entry, Fault};

#[tactic(auto, unfolding(crate::specs::After::parameter))]
fn parameter(number: usize, base: Option<BaseType>) -> Entry
    ensures { result ≡ after.parameter number base }
{
    match base {
        Some(base) => Entry::Object(object_numbered(number, Class::Parameter, base)),
        None => Entry::Object(object_numbered(number, Class::Parameter, BaseType::Integer)),
    }
}

// The type of the parameter of a loop. What two bounds share that are enumeration literals is kept for other loops.
fn loop_base(
    around: &mut Surroundings,
    alloc: Global,
    text: &[u8],
    bounds: &Bounds,
    told: &BoundsTold,
) -> Result<Option<BaseType>, AllocError>
    requires { told.now ≡ telling.bounds_here text.now around.old bounds.now }
    ensures kept { OnOk result (around.new ≡ around.old) }
    ensures base { IfOk result (λ base. base ≡ rules.loop_type told.now) }
{
    match literal_bounds(alloc, text, around.regions(), bounds)? {
        Some(names) => {
            around.keep_shared(alloc, &names)?;
            Ok(names.common(alloc, around.regions())?)
        }
        None => Ok(loop_type(told)),
    }
}

// A `for` loop begins. It is its parameter's region that the loop's statements stand in.
#[tactic(auto, unfolding(crate::specs::After::loop_begun, crate::specs::Faults::loop_faults))]
fn begin_for(
    around: &mut Surroundings,
    alloc: Global,
    text: &[u8],
    token: &Token,
    bounds: &Bounds,
) -> Result<Items<Fault>, AllocError>
    ensures begun { OnOk result (around.new ≡ after.loop_begun text.now (scheme_of.For token.now bounds.now) around.old) }
    ensures faults { IfOk result (λ faults. faults ≡ spec.loop_faults text.now around.old (scheme_of.For token.now bounds.now)) }
{
    let told = bounds_here(alloc, text, around, bounds)?;
    let base = loop_base(around, alloc, text, bounds, &told)?;
    let entry = parameter(around.next_number(), base);
    let faults = loop_range(alloc, told, base)?;
    let name = word(alloc, text, token)?;
    around.add_parameter(name, entry)?;
    Ok(faults)
}

// A loop begins, apart from its label, and these are the faults of its condition or range.
#[tactic(auto, unfolding(crate::specs::After::loop_begun, crate::specs::Faults::loop_faults))]
fn begin_scheme(
    around: &mut Surroundings,
    alloc: Global,
    text: &[u8],
    scheme: &Scheme,
) -> Result<Items<Fault>, AllocError>
    ensures begun { OnOk result (around.new ≡ after.loop_begun text.now scheme.now around.old) }
    ensures faults { IfOk result (λ faults. faults ≡ spec.loop_faults text.now around.old scheme.now) }
{
    match scheme {
        Scheme::Forever => Ok(Items::new(alloc)),
        Scheme::While(condition) => tested(alloc, expression(alloc, text, around, condition)?),
        Scheme::For(token, bounds) => begin_for(around, alloc, text, token, bounds),
    }
}

#[tactic(auto, unfolding(crate::specs::After::label_word))]
fn label_word(
    alloc: Global,
    text: &[u8],
    label: &Option<Token>,
) -> Result<Option<String>, AllocError>
    ensures { IfOk result (λ name. option_map string_bytes name ≡ after.label_word text.now label.now) }
{
    match label {
        None => Ok(None),
        Some(token) => Ok(Some(word(alloc, text, token)?)),
    }
}

/// A loop begins, and these are the faults of its condition or range (10.10).
pub fn begin_loop(
    around: &mut Surroundings,
    alloc: Global,
    text: &[u8],
    label: &Option<Token>,
    scheme: &Scheme,
) -> Result<Items<Fault>, AllocError>
    ensures begun { OnOk result (around.new ≡ after.in_loop (after.label_word text.now label.now) (after.loop_begun text.now scheme.now around.old)) }
    ensures faults { IfOk result (λ faults. faults ≡ spec.loop_faults text.now around.old scheme.now) }
{
    let name = label_word(alloc, text, label)?;
    let faults = begin_scheme(around, alloc, text, scheme)?;
    around.begin_loop(Label::new(name))?;
    Ok(faults)
}

/// A loop ends.
#[tactic(auto, unfolding(crate::specs::After::loop_left))]
pub fn leave_loop(around: &mut Surroundings, scheme: &Scheme)
    ensures { around.new ≡ after.loop_left scheme.now around.old }
{
    match scheme {
        Scheme::For(_, _) => {
            around.drop_parameter();
            around.end_loop();
        }
        _ => around.end_loop(),
    }
}

/// Whether a loop is open, and one of this label where there is one (10.11, 10.12).
#[tactic(auto, unfolding(crate::specs::Faults::is_in_loop))]
pub fn is_in_loop(
    alloc: Global,
    text: &[u8],
    label: &Option<Token>,
    around: &Surroundings,
) -> Result<bool, AllocError>
    ensures { IfOk result (λ is_inside. is_inside ≡ spec.is_in_loop text.now label.now around.now.loops) }
{
    match label {
        None => Ok(around.has_loop()),
        Some(token) => {
            let name = word(alloc, text, token)?;
            Ok(around.has_loop_of(name.as_str()))
        }
    }
}

/// The place of the label that a `next` or `exit` names, or else of its word.
#[tactic(auto, unfolding(crate::specs::Faults::jump_place))]
pub fn jump_place(jump: &Jump) -> u32
    ensures { result ≡ spec.jump_place jump.now jump.now.label }
{
    match jump.label {
        None => jump.word.start,
        Some(token) => token.start,
    }
}
