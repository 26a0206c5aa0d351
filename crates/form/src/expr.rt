ghost use Rattle.std.specs.Prelude.{Some};
ghost use Rattle.form.specs.Shown.{expr_text};

use std::fmt;

// One expression of a grammar, as its record has it. A part is the number of another record, a rule the number of a rule.
// Numbers and no boxes, by a rule of the project: the file and the faults number records, and records may share a part.
#[derive(Clone, Copy, Debug, PartialEq, Eq)]
pub enum Expr {
    // matches where it is
    Empty,
    // the `length` bytes from `start` on in the grammar's text, as the file has them, by the same rule
    Text { start: u16, length: u8 },
    // one byte from `low` to `high`
    Range { low: u8, high: u8 },
    // what the rule's body reads
    Rule { rule: u16 },
    // the first part, then the second where that ended
    Sequence { first: u16, second: u16 },
    // the second part only where the first gave no match
    Choice { first: u16, second: u16 },
    // the part as often as it matches
    Repeat { part: u16 },
    // matches where the part does, and does not move
    Ahead { part: u16 },
    // matches where the part does not, and does not move
    Absent { part: u16 },
    // the part, under a new node
    Node { part: u16 },
    // the part, its node made the last child of the current one
    Link { part: u16 },
    // the part, under a new node whose first child is the current one
    Fold { part: u16 },
    // sets the current node's tag
    Tag { tag: u16 },
}

// The kind's name, then its fields.
impl fmt::Display for Expr {
    ghost output = { λ x. Some (expr_text x) };

    fn fmt<W: fmt::Write>(&self, f: &mut fmt::Formatter<W>) -> fmt::Result {
        match *self {
            Expr::Empty => write!(f, "empty"),
            Expr::Text { start, length } => write!(f, "text {start} {length}"),
            Expr::Range { low, high } => write!(f, "range {low} {high}"),
            Expr::Rule { rule } => write!(f, "rule {rule}"),
            Expr::Sequence { first, second } => write!(f, "sequence {first} {second}"),
            Expr::Choice { first, second } => write!(f, "choice {first} {second}"),
            Expr::Repeat { part } => write!(f, "repeat {part}"),
            Expr::Ahead { part } => write!(f, "ahead {part}"),
            Expr::Absent { part } => write!(f, "absent {part}"),
            Expr::Node { part } => write!(f, "node {part}"),
            Expr::Link { part } => write!(f, "link {part}"),
            Expr::Fold { part } => write!(f, "fold {part}"),
            Expr::Tag { tag } => write!(f, "tag {tag}"),
        }
    }
}

// How many bytes of text, records and rules a grammar file says that it has.
#[derive(Clone, Copy, Debug, PartialEq, Eq)]
pub struct Counts {
    pub text: u16,
    pub exprs: u16,
    pub rules: u16,
}
