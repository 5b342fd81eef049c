use sqlite_items::Items;

/// A unit of type TIME (IEEE Std 1076-2008, 5.2.4.1).
#[derive(Clone, Copy, Debug, Drop)]
pub enum TimeUnit {
    Femtosecond,
    Picosecond,
    Nanosecond,
    Microsecond,
    Millisecond,
    Second,
    Minute,
    Hour,
}

/// `CHAR after INT unit` (10.5.2.1): the byte of the character literal, the number of the integer,
/// the unit.
#[derive(Clone, Copy, Debug, Drop)]
pub struct Element {
    pub literal: u8,
    pub number: u128,
    pub unit: TimeUnit,
}

/// `id <= elem { , elem } ;` (11.6)
#[derive(Debug, Drop)]
pub struct Assignment {
    pub target: Items<u8>,
    pub elements: Items<Element>,
}

/// What a design file of the first form says, before its conditions are tested. Names are in lower
/// case.
#[derive(Debug, Drop)]
pub struct Form {
    pub entity: Items<u8>,
    pub architecture: Items<u8>,
    pub signals: Items<Items<u8>>,
    pub assignments: Items<Assignment>,
}
