//! Declarations (IEEE Std 1076-2008, clauses 5 and 6).

use crate::values::{RangeValue, Value};
use crate::{BaseType, Class, Mark};
use sqlite_items::Items;

/// What is declared: the number of its declaration, its name as it is written, and the line of that name,
/// from 1.
#[derive(Drop)]
pub struct Declared {
    pub number: usize,
    pub name: Items<u8>,
    pub line: u32,
}

/// What narrows a type in a subtype indication.
#[derive(Drop)]
pub enum ResolvedConstraint {
    /// The bounds of a scalar.
    Range(RangeValue),
    /// The bounds of an array's index.
    Index(RangeValue),
}

/// A subtype indication (6.3). Where a static rule is broken in it, it may have no type.
#[derive(Drop)]
pub struct ResolvedSubtype {
    pub mark: Option<Mark>,
    pub constraint: Option<ResolvedConstraint>,
}

/// An enumeration type (5.2.2), with its literals as they are written, in the order of their positions.
#[derive(Drop)]
pub struct ResolvedType {
    pub declared: Declared,
    pub literals: Items<Items<u8>>,
}

/// Objects that are declared together (6.4.2, 6.5).
pub struct ResolvedObjects {
    pub class: Class,
    pub declared: Items<Declared>,
    pub subtype: ResolvedSubtype,
    pub base: BaseType,
    pub initial: Option<Value>,
}

impl Drop for ResolvedObjects {
    fn drop(self) {
        let ResolvedObjects {
            class: _,
            declared,
            subtype,
            base: _,
            initial,
        } = self;
        drop(declared);
        drop(subtype);
        drop(initial);
    }
}

/// A declaration of an architecture or of a process.
pub enum ResolvedDeclaration {
    Type(ResolvedType),
    Subtype(Declared, ResolvedSubtype),
    Objects(ResolvedObjects),
    /// The attribute FOREIGN of the architecture (20.2).
    Foreign(Value),
}

impl Drop for ResolvedDeclaration {
    fn drop(self) {
        match self {
            ResolvedDeclaration::Type(enumeration) => drop(enumeration),
            ResolvedDeclaration::Subtype(name, subtype) => {
                drop(name);
                drop(subtype);
            }
            ResolvedDeclaration::Objects(objects) => drop(objects),
            ResolvedDeclaration::Foreign(value) => drop(value),
        }
    }
}
