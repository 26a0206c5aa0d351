ghost use Rattle.std.specs.Prelude.{◌≡◌};
ghost use Rattle.form.specs.declared.fault.Section.TheVariants.{Expressions};
ghost use Rattle.form.specs.Faults.{fault};
ghost use Rattle.form.specs.Verdict.{allow, is_part, one_part, two_parts, text_record, range_record, expression, record_at};

use crate::items::Item;
use form::expr::{Counts, Expr};
use form::fault::{Fault, FaultKind, Section};

// A record as its five bytes have it, its kind and its two fields, with its number and the counts of its file.
#[derive(Clone, Copy)]
struct Record {
    counts: Counts,
    number: u16,
    kind: u8,
    first: u16,
    second: u16,
}

impl Record {
    // A fault of this record.
    fn fault(self, kind: FaultKind) -> Fault
        ensures { result ≡ fault kind Expressions self.number }
    {
        Fault::new(kind, Section::Expressions, self.number)
    }

    // The expression, where the test that allows it holds, or else a fault of this record.
    fn allow(self, ok: bool, kind: FaultKind, expr: Expr) -> Result<Expr, Fault>
        ensures { result ≡ allow ok kind self.number expr }
    {
        if ok { Ok(expr) } else { Err(self.fault(kind)) }
    }

    // Whether the number is that of a record behind this one.
    fn is_part(self, part: u16) -> bool
        ensures { result ≡ is_part self.counts self.number part }
    {
        self.number < part && part < self.counts.exprs
    }

    // The expression with one part, whose second field is not used.
    fn one_part(self, expr: Expr) -> Result<Expr, Fault>
        ensures { result ≡ one_part self.counts self.number self.first self.second expr }
    {
        if self.second != 0 {
            return Err(self.fault(FaultKind::FieldOutOfRange));
        }
        self.allow(self.is_part(self.first), FaultKind::PartNotAllowed, expr)
    }

    // The expression with two parts.
    fn two_parts(self, expr: Expr) -> Result<Expr, Fault>
        ensures { result ≡ two_parts self.counts self.number self.first self.second expr }
    {
        let ok = self.is_part(self.first) && self.is_part(self.second);
        self.allow(ok, FaultKind::PartNotAllowed, expr)
    }

    // A text of 1 to 255 bytes inside the text section.
    fn text(self) -> Result<Expr, Fault>
        ensures { result ≡ text_record self.counts self.number self.first self.second }
    {
        let start = self.first;
        let end = u32::from(start) + u32::from(self.second);
        match u8::try_from(self.second) {
            Ok(length) if 1 <= length && end <= u32::from(self.counts.text) => {
                Ok(Expr::Text { start, length })
            }
            _ => Err(self.fault(FaultKind::FieldOutOfRange)),
        }
    }

    // A range of bytes that does not run down.
    fn range(self) -> Result<Expr, Fault>
        ensures { result ≡ range_record self.number self.first self.second }
    {
        let low = self.first;
        match u8::try_from(self.second) {
            // The cast is proved to lose nothing: with a second `try_from` a range took more time to read.
            Ok(high) if low <= u16::from(high) => Ok(Expr::Range {
                low: low as u8,
                high,
            }),
            _ => Err(self.fault(FaultKind::FieldOutOfRange)),
        }
    }

    // The record's expression: its kind is known, its fields are in range, and its parts are allowed.
    fn expr(self) -> Result<Expr, Fault>
        ensures { result ≡ expression self.counts self.number self.kind self.first self.second }
    {
        let Record { first, second, .. } = self;
        let field = FaultKind::FieldOutOfRange;
        // The one place where the byte of a kind becomes an expression: an enum of kinds between would be matched again.
        match self.kind {
            0 => self.allow(first == 0 && second == 0, field, Expr::Empty),
            1 => self.text(),
            2 => self.range(),
            3 => self.allow(
                first < self.counts.rules && second == 0,
                field,
                Expr::Rule { rule: first },
            ),
            4 => self.two_parts(Expr::Sequence { first, second }),
            5 => self.two_parts(Expr::Choice { first, second }),
            6 => self.one_part(Expr::Repeat { part: first }),
            7 => self.one_part(Expr::Ahead { part: first }),
            8 => self.one_part(Expr::Absent { part: first }),
            9 => self.one_part(Expr::Node { part: first }),
            10 => self.one_part(Expr::Link { part: first }),
            11 => self.one_part(Expr::Fold { part: first }),
            12 => self.allow(1 <= first && second == 0, field, Expr::Tag { tag: first }),
            _ => Err(self.fault(FaultKind::UnknownKind)),
        }
    }
}

// An expression is a record of five bytes: its kind, then two numbers.
impl Item for Expr {
    const SIZE: usize = 5;

    ghost SIZE = { 5 };

    ghost read = { record_at };

    fn take(counts: Counts, number: u16, bytes: &[u8]) -> Result<(Expr, &[u8]), Fault> {
        let [kind, a1, a0, b1, b0, rest @ ..] = bytes else {
            unreachable!()
        };
        let record = Record {
            counts,
            number,
            kind: *kind,
            first: u16::from_be_bytes([*a1, *a0]),
            second: u16::from_be_bytes([*b1, *b0]),
        };
        let expr = record.expr()?;
        Ok((expr, rest))
    }
}
