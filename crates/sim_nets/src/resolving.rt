//! The value of an element by its sources (14.7.3.2).

ghost use Rattle.std.specs.Prelude.{◌≡◌};
ghost use Rattle.sim_nets.specs.Resolving.{logic_of, position_of, add_source, value_in};
ghost use Rattle.sim_logic.specs.Logic.{resolution};

use sim_logic::{Logic9, resolve};

/// The value of STD_ULOGIC at a position; `'U'` for a number that is no position.
pub fn logic_at(position: i64) -> Logic9
    ensures { result ≡ logic_of position }
{
    match position {
        1 => Logic9::X,
        2 => Logic9::Zero,
        3 => Logic9::One,
        4 => Logic9::Z,
        5 => Logic9::W,
        6 => Logic9::L,
        7 => Logic9::H,
        8 => Logic9::Dash,
        _ => Logic9::U,
    }
}

// The position of a value of STD_ULOGIC.
fn position(value: Logic9) -> i64
    ensures { result ≡ position_of value }
{
    match value {
        Logic9::U => 0,
        Logic9::X => 1,
        Logic9::Zero => 2,
        Logic9::One => 3,
        Logic9::Z => 4,
        Logic9::W => 5,
        Logic9::L => 6,
        Logic9::H => 7,
        Logic9::Dash => 8,
    }
}

// Two values of STD_ULOGIC through the table of resolution.
fn join_values(a: Logic9, b: Logic9) -> Logic9
    ensures { result ≡ resolution a b }
{
    resolve(&[a, b])
}

// The first two sources, folded from 'Z'.
fn first_two(first: i64, second: i64) -> Logic9
    ensures { result ≡ resolution (resolution Logic9.Z (logic_of first)) (logic_of second) }
{
    join_values(join_values(Logic9::Z, logic_at(first)), logic_at(second))
}

/// What is known of the sources of an element that were looked at so far: none, one, which is taken
/// as it is, or more, which are folded from `'Z'`.
#[derive(Clone, Copy, Debug, PartialEq, Eq)]
pub enum Sources {
    None,
    One(i64),
    Folded(Logic9),
}

impl Sources {
    /// With one more source.
    pub fn with(self, value: i64) -> Sources
        ensures { result ≡ add_source self value }
    {
        match self {
            Sources::None => Sources::One(value),
            Sources::One(first) => Sources::Folded(first_two(first, value)),
            Sources::Folded(so_far) => Sources::Folded(join_values(so_far, logic_at(value))),
        }
    }

    /// The value of the element, whose default is taken where it has no source.
    pub fn value_or(self, default: i64) -> i64
        ensures { result ≡ value_in default self }
    {
        match self {
            Sources::None => default,
            Sources::One(value) => value,
            Sources::Folded(value) => position(value),
        }
    }
}
