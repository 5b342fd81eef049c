//! Declarations in nested regions, step by step, with what names denote there.

use crate::entries::{entry_of, meanings_shown, type_of, type_shown, types_shown};
use crate::trouble::Trouble;
use std::alloc::{AllocError, Global};
use vhdl_names_operators::{common_discrete, one_shared};
use vhdl_names_overloads::{Meanings, Types};
use vhdl_names_scope::{Region, Regions, standard};
use vhdl_units::BaseType;

/// Nested regions, and what a name denoted when it was kept.
#[derive(Drop)]
pub struct Scope {
    pub regions: Regions,
    pub kept: Meanings,
}

impl Scope {
    /// What always is visible, with nothing kept.
    pub fn new(alloc: Global) -> Result<Scope, AllocError> {
        Ok(Scope {
            regions: Regions::new(alloc, standard(alloc)?),
            kept: Meanings::new(alloc),
        })
    }
}

fn name_of(alloc: Global, word: &str) -> Result<String, AllocError> {
    String::from_str(alloc, word)
}

fn add(regions: &mut Regions, alloc: Global, written: &str) -> Result<(), Trouble> {
    let (word, entry) = written.split_once(" ").ok_or(Trouble::Malformed)?;
    let entry = entry_of(entry)?;
    regions.add(name_of(alloc, word)?, entry)?;
    Ok(())
}

fn open_loop(regions: &mut Regions, alloc: Global, written: &str) -> Result<(), Trouble> {
    let (word, entry) = written.split_once(" ").ok_or(Trouble::Malformed)?;
    let entry = entry_of(entry)?;
    regions.open_loop(name_of(alloc, word)?, entry)?;
    Ok(())
}

/// Closes an entity and begins an architecture of it.
fn begin_architecture(regions: &mut Regions, alloc: Global) -> Result<(), AllocError> {
    let entity = regions.close(alloc).more;
    regions.open(alloc, entity)
}

/// Closes an architecture and begins another one of its entity.
fn begin_another(regions: &mut Regions, alloc: Global) -> Result<(), AllocError> {
    let entity = regions.close(alloc).base;
    regions.open(alloc, entity)
}

/// Begins anew, where nothing is visible, or what always is.
fn begin(regions: &mut Regions, alloc: Global, what: &str) -> Result<(), Trouble> {
    match what {
        "standard" => *regions = Regions::new(alloc, standard(alloc)?),
        "empty" => *regions = Regions::new(alloc, Region::new(alloc)),
        _ => return Err(Trouble::Malformed),
    }
    Ok(())
}

/// A step that changes what is declared. Whether it is one.
fn region_step(
    regions: &mut Regions,
    alloc: Global,
    word: &str,
    rest: &str,
) -> Result<bool, Trouble> {
    match word {
        "begin" => begin(regions, alloc, rest)?,
        "open" => regions.open(alloc, Region::new(alloc))?,
        "close" => {
            let _ = regions.close(alloc);
        }
        "architecture" => begin_architecture(regions, alloc)?,
        "another" => begin_another(regions, alloc)?,
        "loop" => open_loop(regions, alloc, rest)?,
        "end-loop" => regions.close_loop(),
        "add" => add(regions, alloc, rest)?,
        _ => return Ok(false),
    }
    Ok(true)
}

fn position_shown(alloc: Global, position: Option<usize>) -> Result<String, AllocError> {
    match position {
        Some(position) => format!(in alloc; "{position}"),
        None => String::from_str(alloc, "none"),
    }
}

/// The position at which a name is a literal of a type.
fn position(regions: &Regions, alloc: Global, written: &str) -> Result<String, Trouble> {
    let (word, base) = written.split_once(" ").ok_or(Trouble::Malformed)?;
    let base = type_of(base)?;
    let found = regions.meanings(alloc, word)?;
    Ok(position_shown(alloc, found.position(base))?)
}

fn types(regions: &Regions, alloc: Global, word: &str) -> Result<Types, AllocError> {
    Ok(Types::of_literals(regions.meanings(alloc, word)?))
}

/// Two types as one, where they are the same.
fn both(
    alloc: Global,
    one: Option<BaseType>,
    other: Option<BaseType>,
) -> Result<String, AllocError> {
    if one == other {
        return type_shown(alloc, one);
    }
    format!(in alloc; "{one:?} and {other:?}")
}

/// The one type that two names have in common as bounds, in both orders.
fn bounds(regions: &Regions, alloc: Global, written: &str) -> Result<String, Trouble> {
    let (left, right) = written.split_once(" ").ok_or(Trouble::Malformed)?;
    let left = types(regions, alloc, left)?;
    let right = types(regions, alloc, right)?;
    let one = common_discrete(&left, &right);
    let other = common_discrete(&right, &left);
    Ok(both(alloc, one, other)?)
}

/// The one type that two names share, in both orders.
fn shared(
    regions: &Regions,
    alloc: Global,
    left: &str,
    right: &str,
) -> Result<(Option<BaseType>, Option<BaseType>), AllocError> {
    let one = one_shared(regions.shared(alloc, left, right)?);
    let other = one_shared(regions.shared(alloc, right, left)?);
    Ok((one, other))
}

/// The same, before it is kept and behind that.
fn shares(regions: &mut Regions, alloc: Global, written: &str) -> Result<String, Trouble> {
    let (left, right) = written.split_once(" ").ok_or(Trouble::Malformed)?;
    let before = shared(regions, alloc, left, right)?;
    regions.keep_shared(alloc, left, right)?;
    regions.keep_shared(alloc, right, left)?;
    let kept = shared(regions, alloc, left, right)?;
    if before != kept {
        return Ok(format!(in alloc; "{before:?}, kept {kept:?}")?);
    }
    Ok(both(alloc, kept.0, kept.1)?)
}

fn declares(regions: &Regions, alloc: Global, word: &str) -> Result<String, AllocError> {
    String::from_str(
        alloc,
        if regions.declares_other(word) {
            "yes"
        } else {
            "no"
        },
    )
}

fn keep(scope: &mut Scope, alloc: Global, word: &str) -> Result<(), AllocError> {
    scope.kept = scope.regions.meanings(alloc, word)?;
    Ok(())
}

/// A step that changes what is declared, or `keep NAME`. Whether it is one.
pub fn scope_step(alloc: Global, scope: &mut Scope, written: &str) -> Result<bool, Trouble> {
    let (word, rest) = written.split_once(" ").unwrap_or((written, ""));
    if word == "keep" {
        keep(scope, alloc, rest)?;
        return Ok(true);
    }
    region_step(&mut scope.regions, alloc, word, rest)
}

/// What is asked of the regions, or of what was kept.
pub fn scope_came(alloc: Global, scope: &mut Scope, given: &str) -> Result<String, Trouble> {
    if given == "kept" {
        return Ok(meanings_shown(alloc, &scope.kept)?);
    }
    asked(&mut scope.regions, alloc, given)
}

/// What is asked.
fn asked(regions: &mut Regions, alloc: Global, given: &str) -> Result<String, Trouble> {
    let (word, rest) = given.split_once(" ").ok_or(Trouble::Malformed)?;
    match word {
        "denotes" => Ok(meanings_shown(alloc, &regions.meanings(alloc, rest)?)?),
        "declares" => Ok(declares(regions, alloc, rest)?),
        "position" => position(regions, alloc, rest),
        "types" => Ok(types_shown(alloc, &types(regions, alloc, rest)?)?),
        "bounds" => bounds(regions, alloc, rest),
        "shares" => shares(regions, alloc, rest),
        _ => Err(Trouble::Malformed),
    }
}
