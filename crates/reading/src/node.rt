// The number that names no node. By a rule of the project a node is seven numbers of 16 bits in memory that the caller lends,
// and this one is none: so a link is no Option.
pub const NONE: u16 = 65535;

// A node of the tree that a match builds. A link to another node is its number in the table, or NONE.
#[derive(Clone, Copy, Debug, PartialEq, Eq)]
pub struct Node {
    pub tag: u16,
    // where the node's text begins and ends
    pub from: u16,
    pub to: u16,
    // the parent
    pub up: u16,
    // the first and the last child
    pub first: u16,
    pub last: u16,
    // the next child of the same parent
    pub next: u16,
}
