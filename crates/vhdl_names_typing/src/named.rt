//! Expressions that are an enumeration literal and nothing else.

ghost use Rattle.std.specs.Prelude.{◌≡◌, IfOk, string_bytes};
ghost use Rattle.std.specs.Option.{option_map};
ghost use Rattle.vhdl_names_operators.specs.Places.{common_discrete};
ghost use Rattle.vhdl_names_typing.specs.Named as spec;

use std::alloc::{AllocError, Global};
use vhdl_names_operators::one_shared;
use vhdl_names_overloads::Meanings;
use vhdl_names_scope::{Regions, word};
use vhdl_tokens::{Kind, Token};
use vhdl_tree::{Bounds, Expr, Name};
use vhdl_units::BaseType;

#[tactic(auto, unfolding(crate::specs::Named::is_character))]
fn is_character(kind: Kind) -> bool
    ensures { result ≡ spec.is_character kind }
{
    match kind {
        Kind::Char => true,
        _ => false,
    }
}

// The token that a whole expression is, where it is an identifier or a character literal.
#[tactic(auto, unfolding(crate::specs::Named::sole_token, crate::specs::Named::token_in))]
fn sole_token(expr: &Expr) -> Option<Token>
    ensures { result ≡ spec.sole_token expr.now }
{
    match expr {
        Expr::Name(Name { identifier, parts }) if parts.is_empty() => Some(*identifier),
        Expr::Literal(token) if is_character(token.kind) => Some(*token),
        _ => None,
    }
}

// Whether a name denotes enumeration literals alone. It doesn't where the name isn't declared.
#[tactic(auto, unfolding(crate::specs::Named::are_literals))]
fn are_literals(entries: &Meanings) -> bool
    ensures { result ≡ spec.are_literals entries.now }
{
    match entries.get(0) {
        Some(entry) => entry.is_literal(),
        None => false,
    }
}

// The name of the enumeration literals that a whole expression is.
#[tactic(auto, unfolding(crate::specs::Named::literal_name, crate::specs::Named::denoted_by))]
fn literal_name(
    alloc: Global,
    text: &[u8],
    regions: &Regions,
    expr: &Expr,
) -> Result<Option<String>, AllocError>
    ensures { IfOk result (λ name. option_map string_bytes name ≡ spec.literal_name text.now regions.now expr.now) }
{
    let Some(token) = sole_token(expr) else {
        return Ok(None);
    };
    let name = word(alloc, text, &token)?;
    let entries = regions.meanings(alloc, name.as_str())?;
    if are_literals(&entries) {
        Ok(Some(name))
    } else {
        Ok(None)
    }
}

// The names of two expressions, where both are enumeration literals.
#[tactic(auto, unfolding(crate::specs::Named::both))]
fn both_literals(
    alloc: Global,
    text: &[u8],
    regions: &Regions,
    left: &Expr,
    right: &Expr,
) -> Result<Option<LiteralBounds>, AllocError>
    ensures { IfOk result (λ found. option_map spec.names_of found ≡
        spec.both (spec.literal_name text.now regions.now left.now) (spec.literal_name text.now regions.now right.now)) }
{
    let Some(left) = literal_name(alloc, text, regions, left)? else {
        return Ok(None);
    };
    let Some(right) = literal_name(alloc, text, regions, right)? else {
        return Ok(None);
    };
    Ok(Some(LiteralBounds { left, right }))
}

/// The names of two bounds, where both are enumeration literals and nothing else (5.2.1). The types of each are those
/// of the literals that the name denotes.
#[tactic(auto, unfolding(crate::specs::Named::literal_names))]
pub fn literal_bounds(
    alloc: Global,
    text: &[u8],
    regions: &Regions,
    bounds: &Bounds,
) -> Result<Option<LiteralBounds>, AllocError>
    ensures { IfOk result (λ found. option_map spec.names_of found ≡ spec.literal_names text.now regions.now bounds.now) }
{
    match bounds {
        Bounds::Range(left, _, right) => both_literals(alloc, text, regions, left, right),
        Bounds::Name(_) => Ok(None),
    }
}

/// Two bounds that are enumeration literals.
#[derive(Debug, Drop)]
pub struct LiteralBounds {
    left: String,
    right: String,
}

impl LiteralBounds {
    /// The discrete type that both can have, where it is exactly one (5.3.2.1, 10.10). Once it was kept it is found by
    /// a few lookups.
    pub fn common(&self, alloc: Global, regions: &Regions) -> Result<Option<BaseType>, AllocError>
        ensures { IfOk result (λ base. base ≡ common_discrete (spec.types_of regions.now (string_bytes self.now.left)) (spec.types_of regions.now (string_bytes self.now.right))) }
    {
        let shared = regions.shared(alloc, self.left.as_str(), self.right.as_str())?;
        Ok(one_shared(shared))
    }

    /// Keeps the discrete types that both can have in the regions, until a literal is declared.
    pub fn keep(&self, alloc: Global, regions: &mut Regions) -> Result<(), AllocError>
        ensures { regions.new ≡ regions.old }
    {
        regions.keep_shared(alloc, self.left.as_str(), self.right.as_str())
    }
}
