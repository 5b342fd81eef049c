//! One element of a net in one update (14.7.3).

ghost use Rattle.std.specs.Prelude.{◌≡◌, option_map};
ghost use Rattle.sim_nets.specs.Updating.{act_of, override_of, driving_of, effective_of, effective_in, updated_of, updated_in, cell_after};

/// Which values a deposit gives (23.24, of vhpi_put_value).
#[derive(Clone, Copy, Debug, PartialEq, Eq)]
pub enum PutMode {
    /// The current value alone, up to the next update of the element.
    Deposit,
    /// The driving value, up to the next time that a source of the element is active.
    DepositPropagate,
}

/// A value that is to be put on an element in the next update.
#[derive(Clone, Copy, Debug, PartialEq, Eq)]
pub struct Deposit {
    pub mode: PutMode,
    pub value: i64,
}

/// An element as the design has it. The actual is the element of the net above from which an
/// element of an in or inout port takes its effective value.
#[derive(Clone, Copy, Debug, PartialEq, Eq)]
pub struct Element {
    pub default: i64,
    pub actual: Option<u32>,
}

/// The state of an element.
#[derive(Clone, Copy, Debug, PartialEq, Eq)]
pub struct Cell {
    pub current: i64,
    /// The value before the last event, or the current one where there was none.
    pub last: i64,
    /// The driving value that a deposit gave.
    pub overriding: Option<i64>,
    pub has_event: bool,
    pub is_active: bool,
}

/// What is known of an element when its sources have been looked at.
#[derive(Clone, Copy, Debug, PartialEq, Eq)]
pub struct Rising {
    pub is_active: bool,
    pub overriding: Option<i64>,
    pub driving: i64,
}

/// The driving value of an element, by whether a source is active and by what the sources give.
pub fn rise(is_sourced: bool, of_sources: i64, deposit: Option<Deposit>, before: &Cell) -> Rising
    ensures active { result.is_active ≡ act_of is_sourced deposit }
    ensures overriding { result.overriding ≡ override_of deposit is_sourced before.now.overriding }
    ensures driving { result.driving ≡ driving_of (override_of deposit is_sourced before.now.overriding) of_sources }
{
    let put = match deposit {
        Some(
            Deposit {
                mode: PutMode::DepositPropagate,
                value,
            },
        ) => Some(value),
        _ => None,
    };
    let overriding = match put {
        Some(value) => Some(value),
        None if is_sourced => None,
        None => before.overriding,
    };
    Rising {
        is_active: is_sourced || put.is_some(),
        overriding,
        driving: overriding.unwrap_or(of_sources),
    }
}

/// What is known of an element when what it is connected to has been looked at.
#[derive(Clone, Copy, Debug, PartialEq, Eq)]
pub struct Falling {
    pub effective: i64,
    pub is_updated: bool,
}

/// The effective value of an element, by what its actual has where it has one.
pub fn fall(risen: &Rising, begins: bool, actual: Option<Falling>) -> Falling
    ensures effective { result.effective ≡ effective_of (option_map effective_in actual) risen.now.driving }
    ensures updated { result.is_updated ≡ updated_of begins risen.now.is_active (option_map updated_in actual) }
{
    match actual {
        Some(above) => Falling {
            effective: above.effective,
            is_updated: begins || risen.is_active || above.is_updated,
        },
        None => Falling {
            effective: risen.driving,
            is_updated: begins || risen.is_active,
        },
    }
}

/// The state of an element after an update.
pub fn fallen_cell(
    before: &Cell,
    deposit: Option<Deposit>,
    overriding: Option<i64>,
    fallen: &Falling,
) -> Cell
    ensures { result ≡ cell_after before.now deposit overriding fallen.now.is_updated fallen.now.effective }
{
    let put = match deposit {
        Some(
            Deposit {
                mode: PutMode::Deposit,
                value,
            },
        ) => Some(value),
        _ => None,
    };
    let current = match put {
        Some(value) => value,
        None if fallen.is_updated => fallen.effective,
        None => before.current,
    };
    let has_event = current != before.current;
    Cell {
        current,
        last: if has_event {
            before.current
        } else {
            before.last
        },
        overriding,
        has_event,
        is_active: fallen.is_updated || put.is_some(),
    }
}
