//! Truth values and the nine values of STD_ULOGIC, by their positions (9.2.2).

ghost use Rattle.std.specs.Prelude.{◌≡◌};
ghost use Rattle.sim_operators.specs.Logic as spec;

use sim_elaborated::{Logical, ShortCircuit};
use sim_logic::{Logic9, and9, not9, or9, to_x01, xor9};

const NINE_VALUES: [Logic9; 9] = [
    Logic9::U,
    Logic9::X,
    Logic9::Zero,
    Logic9::One,
    Logic9::Z,
    Logic9::W,
    Logic9::L,
    Logic9::H,
    Logic9::Dash,
];

/// Whether a position of BOOLEAN or BIT is TRUE or `'1'`.
pub fn is_true(number: i64) -> bool
    ensures { result ≡ spec.is_true number }
{
    number != 0
}

/// The position of a truth value in BOOLEAN.
pub fn truth(holds: bool) -> i64
    ensures { result ≡ spec.truth holds }
{
    if holds { 1 } else { 0 }
}

fn two_valued(operator: Logical, a: bool, b: bool) -> bool
    ensures { result ≡ spec.two_valued operator a b }
{
    match operator {
        Logical::And => a && b,
        Logical::Or => a || b,
        Logical::Nand => !(a && b),
        Logical::Nor => !(a || b),
        Logical::Xor => if a { !b } else { b },
        Logical::Xnor => if a { b } else { !b },
    }
}

pub(crate) fn two_valued_at(operator: Logical, a: i64, b: i64) -> i64
    ensures { result ≡ spec.two_valued_at operator a b }
{
    truth(two_valued(operator, is_true(a), is_true(b)))
}

pub(crate) fn two_valued_not_at(number: i64) -> i64
    ensures { result ≡ spec.two_valued_not_at number }
{
    truth(!is_true(number))
}

fn value_at(number: i64) -> Logic9
    ensures { result ≡ spec.value_at number }
{
    match NINE_VALUES.get(number.unsigned_abs() as usize) {
        Some(value) => *value,
        None => Logic9::U,
    }
}

fn position_of(value: Logic9) -> i64
    ensures { result ≡ spec.position_of value }
{
    match value {
        Logic9::U => 0,
        Logic9::X => 1,
        Logic9::Zero => 2,
        Logic9::One => 3,
        Logic9::Z => 4,
        Logic9::W => 5,
        Logic9::L => 6,
        Logic9::H => 7,
        Logic9::Dash => 8,
    }
}

fn nine_valued(operator: Logical, a: Logic9, b: Logic9) -> Logic9
    ensures { result ≡ spec.nine_valued operator a b }
{
    match operator {
        Logical::And => and9(a, b),
        Logical::Or => or9(a, b),
        Logical::Nand => not9(and9(a, b)),
        Logical::Nor => not9(or9(a, b)),
        Logical::Xor => xor9(a, b),
        Logical::Xnor => not9(xor9(a, b)),
    }
}

pub(crate) fn nine_valued_at(operator: Logical, a: i64, b: i64) -> i64
    ensures { result ≡ spec.nine_valued_at operator a b }
{
    position_of(nine_valued(operator, value_at(a), value_at(b)))
}

pub(crate) fn nine_valued_not_at(number: i64) -> i64
    ensures { result ≡ spec.nine_valued_not_at number }
{
    position_of(not9(value_at(number)))
}

/// TO_X01 of a position of STD_ULOGIC.
pub fn x01(number: i64) -> i64
    ensures { result ≡ spec.x01_at number }
{
    position_of(to_x01(value_at(number)))
}

pub(crate) fn logical_of(operator: ShortCircuit) -> Logical
    ensures { result ≡ spec.logical_of operator }
{
    match operator {
        ShortCircuit::And => Logical::And,
        ShortCircuit::Or => Logical::Or,
        ShortCircuit::Nand => Logical::Nand,
        ShortCircuit::Nor => Logical::Nor,
    }
}

pub(crate) fn decided_by(operator: ShortCircuit, left: bool) -> Option<bool>
    ensures { result ≡ spec.decided_by operator left }
{
    match operator {
        ShortCircuit::And => if left { None } else { Some(false) },
        ShortCircuit::Or => if left { Some(true) } else { None },
        ShortCircuit::Nand => if left { None } else { Some(true) },
        ShortCircuit::Nor => if left { Some(false) } else { None },
    }
}

pub(crate) fn both(operator: ShortCircuit, a: i64, b: i64) -> bool
    ensures { result ≡ spec.two_valued (spec.logical_of operator) (spec.is_true a) (spec.is_true b) }
{
    two_valued(logical_of(operator), is_true(a), is_true(b))
}
