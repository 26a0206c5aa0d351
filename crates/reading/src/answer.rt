// What reading a rule at a position comes to. By a rule of the project all five have a value whether it matched or not, so
// that nothing here is an Option.
#[derive(Clone, Copy, Debug, PartialEq, Eq)]
pub struct Reading {
    // whether it matched
    pub matched: bool,
    // where the match ended; the position itself where there is no match
    pub end: u16,
    // one more than the greatest height of the rules that it asked, and 1 where it asked none
    pub height: u8,
    // one past the highest position that was looked at, and at least the position itself
    pub reach: u16,
    // how many nodes the match makes, 65,535 for that many and more; none where there is no match
    pub nodes: u16,
}

// Why a rule at a position has no reading.
#[derive(Clone, Copy, Debug, PartialEq, Eq)]
pub enum Refusal {
    // the grammar has no such rule
    NoSuchRule,
    // the position is past the end of the input
    NoSuchPosition,
    // a rule was asked inside 64 others
    TooDeep,
}
