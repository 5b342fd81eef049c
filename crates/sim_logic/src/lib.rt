//! The nine values of std_logic_1164: their resolution, their operators and the laws of both.
//!
//! All calls are total on what they ask for, and take no memory.
#![tactic(auto)]

ghost use Rattle.std.specs.Prelude.{◌≡◌, ◌<◌, length, fold};
ghost use Rattle.sim_logic.specs.Logic.{resolution, resolved, and_table, or_table, xor_table, not_table, x01_table};

use Logic9::{Dash, H, L, One, U, W, X, Z, Zero};

pub mod laws;

/// A value of STD_ULOGIC, in the order of the standard.
#[derive(Clone, Copy, Debug, PartialEq, Eq, Hash)]
pub enum Logic9 {
    /// `'U'`, uninitialized.
    U,
    /// `'X'`, forcing unknown.
    X,
    /// `'0'`, forcing 0.
    Zero,
    /// `'1'`, forcing 1.
    One,
    /// `'Z'`, high impedance.
    Z,
    /// `'W'`, weak unknown.
    W,
    /// `'L'`, weak 0.
    L,
    /// `'H'`, weak 1.
    H,
    /// `'-'`, don't care.
    Dash,
}

type Row = [Logic9; 9];

const RESOLUTION: [Row; 9] = [
    [U, U, U, U, U, U, U, U, U],
    [U, X, X, X, X, X, X, X, X],
    [U, X, Zero, X, Zero, Zero, Zero, Zero, X],
    [U, X, X, One, One, One, One, One, X],
    [U, X, Zero, One, Z, W, L, H, X],
    [U, X, Zero, One, W, W, W, W, X],
    [U, X, Zero, One, L, W, L, W, X],
    [U, X, Zero, One, H, W, W, H, X],
    [U, X, X, X, X, X, X, X, X],
];

const AND: [Row; 9] = [
    [U, U, Zero, U, U, U, Zero, U, U],
    [U, X, Zero, X, X, X, Zero, X, X],
    [Zero, Zero, Zero, Zero, Zero, Zero, Zero, Zero, Zero],
    [U, X, Zero, One, X, X, Zero, One, X],
    [U, X, Zero, X, X, X, Zero, X, X],
    [U, X, Zero, X, X, X, Zero, X, X],
    [Zero, Zero, Zero, Zero, Zero, Zero, Zero, Zero, Zero],
    [U, X, Zero, One, X, X, Zero, One, X],
    [U, X, Zero, X, X, X, Zero, X, X],
];

const OR: [Row; 9] = [
    [U, U, U, One, U, U, U, One, U],
    [U, X, X, One, X, X, X, One, X],
    [U, X, Zero, One, X, X, Zero, One, X],
    [One, One, One, One, One, One, One, One, One],
    [U, X, X, One, X, X, X, One, X],
    [U, X, X, One, X, X, X, One, X],
    [U, X, Zero, One, X, X, Zero, One, X],
    [One, One, One, One, One, One, One, One, One],
    [U, X, X, One, X, X, X, One, X],
];

const XOR: [Row; 9] = [
    [U, U, U, U, U, U, U, U, U],
    [U, X, X, X, X, X, X, X, X],
    [U, X, Zero, One, X, X, Zero, One, X],
    [U, X, One, Zero, X, X, One, Zero, X],
    [U, X, X, X, X, X, X, X, X],
    [U, X, X, X, X, X, X, X, X],
    [U, X, Zero, One, X, X, Zero, One, X],
    [U, X, One, Zero, X, X, One, Zero, X],
    [U, X, X, X, X, X, X, X, X],
];

const NOT: Row = [U, X, One, Zero, X, X, One, Zero, X];

const X01: Row = [X, X, Zero, One, X, X, Zero, One, X];

/// The value of a signal with these sources, by the resolution function of STD_LOGIC: a single
/// source is taken unchanged, even `'-'`; more are folded from `'Z'` through the resolution table.
///
/// It needs at least one source.
pub fn resolve(sources: &[Logic9]) -> Logic9
    requires { 0 < length sources.now }
    ensures { result ≡ resolved sources.now }
{
    match sources {
        [only] => *only,
        many => together(many),
    }
}

fn together(sources: &[Logic9]) -> Logic9
    ensures { result ≡ fold resolution Logic9.Z sources.now }
{
    sources
        .iter()
        .fold(Z, |so_far, source| join(so_far, *source))
}

fn join(a: Logic9, b: Logic9) -> Logic9
    ensures { result ≡ resolution a b }
{
    RESOLUTION[a as usize][b as usize]
}

/// `a and b`.
pub fn and9(a: Logic9, b: Logic9) -> Logic9
    ensures { result ≡ and_table a b }
{
    AND[a as usize][b as usize]
}

/// `a or b`.
pub fn or9(a: Logic9, b: Logic9) -> Logic9
    ensures { result ≡ or_table a b }
{
    OR[a as usize][b as usize]
}

/// `a xor b`.
pub fn xor9(a: Logic9, b: Logic9) -> Logic9
    ensures { result ≡ xor_table a b }
{
    XOR[a as usize][b as usize]
}

/// `not a`.
pub fn not9(a: Logic9) -> Logic9
    ensures { result ≡ not_table a }
{
    NOT[a as usize]
}

/// `To_X01(a)`: `'0'` for `'0'` and `'L'`, `'1'` for `'1'` and `'H'`, else `'X'`.
pub fn to_x01(a: Logic9) -> Logic9
    ensures { result ≡ x01_table a }
{
    X01[a as usize]
}
