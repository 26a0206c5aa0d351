ghost use Rattle.std.specs.Prelude.{◌≡◌, Some};
ghost use Rattle.form.specs.Faults.{fault, fault_text, number, section_number};

use std::fmt;

// What can be wrong with a grammar file, in the order of their numbers, 1 to 9.
#[derive(Clone, Copy, Debug, PartialEq, Eq)]
pub enum FaultKind {
    // the file ends too early
    EndsEarly,
    // bytes follow the rules
    TrailingBytes,
    // a count is outside its limits
    CountOutOfLimits,
    // a record's kind is unknown
    UnknownKind,
    // a record's field is outside its range, or is not used and not 0
    FieldOutOfRange,
    // a part is not a later record, or a rule's body is no record
    PartNotAllowed,
    // an expression is nested more than 32 deep
    NestedTooDeep,
    // a repeat's part may take nothing
    NullableRepeat,
    // a rule can come back to itself with no byte taken
    LeftRecursion,
}

// Where a fault is: the file as a whole, or one of its three sections.
#[derive(Clone, Copy, Debug, PartialEq, Eq)]
pub enum Section {
    File,
    Text,
    Expressions,
    Rules,
}

// A fault: its kind, its section, and the lowest record or rule at fault there; 0 where the fault is of no record or rule. That it
// is 0 then, and no Option, is a rule of the project.
#[derive(Clone, Copy, Debug, PartialEq, Eq)]
pub struct Fault {
    pub kind: FaultKind,
    pub section: Section,
    pub index: u16,
}

impl Fault {
    // The fault of this kind in this section, at this record or rule.
    pub fn new(kind: FaultKind, section: Section, index: u16) -> Fault
        ensures { result ≡ fault kind section index }
    {
        Fault {
            kind,
            section,
            index,
        }
    }
}

// The number under which the fault is reported.
impl From<FaultKind> for u8 {
    ghost from_gives = { λ kind n. n ≡ number kind };

    fn from(kind: FaultKind) -> u8 {
        match kind {
            FaultKind::EndsEarly => 1,
            FaultKind::TrailingBytes => 2,
            FaultKind::CountOutOfLimits => 3,
            FaultKind::UnknownKind => 4,
            FaultKind::FieldOutOfRange => 5,
            FaultKind::PartNotAllowed => 6,
            FaultKind::NestedTooDeep => 7,
            FaultKind::NullableRepeat => 8,
            FaultKind::LeftRecursion => 9,
        }
    }
}

// The section's number; 0 for the file as a whole.
impl From<Section> for u8 {
    ghost from_gives = { λ section n. n ≡ section_number section };

    fn from(section: Section) -> u8 {
        match section {
            Section::File => 0,
            Section::Text => 1,
            Section::Expressions => 2,
            Section::Rules => 3,
        }
    }
}

// `book`, then the fault's number, its section's, and the record or rule at fault.
impl fmt::Display for Fault {
    ghost output = { λ f. Some (fault_text f) };

    fn fmt<W: fmt::Write>(&self, f: &mut fmt::Formatter<W>) -> fmt::Result {
        let kind = u8::from(self.kind);
        let section = u8::from(self.section);
        let index = self.index;
        write!(f, "book {kind} {section} {index}")
    }
}
