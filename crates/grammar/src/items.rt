ghost use Rattle.std.specs.Prelude.{◌≡◌, ℕ, ◌*◌, ◌≤◌, List, length, drop, vec_items, Ok, Err, Result, IfOk, IfErr};
ghost use Rattle.form.specs.declared.expr.Counts.{Counts};
ghost use Rattle.form.specs.declared.fault.Fault.{Fault};
ghost use Rattle.form.specs.Verdict.{body_at, each};
ghost use Rattle.grammar.specs.Views.{Told};

use crate::error::CheckError;
use crate::sections::Piece;
use form::expr::Counts;
use form::fault::{Fault, FaultKind, Section};
use std::alloc::Global;

// An item of a section, which its bytes, its number in the section and the file's counts tell.
pub(crate) trait Item: Drop {
    // How many bytes an item has.
    const SIZE: usize;

    ghost SIZE: { ℕ };

    // The item that the bytes begin with, or its fault.
    ghost read: { Counts → ℕ → List ℕ → Result Self Fault };

    // The item at the front of the bytes, or its fault, and the bytes behind it.
    fn take(counts: Counts, number: u16, bytes: &[u8]) -> Result<(Self, &[u8]), Fault>
        requires { SIZE ≤ length bytes.now }
        ensures item { IfOk result (λ t. Ok t.0 ≡ read counts number bytes.now) }
        ensures rest { IfOk result (λ t. t.1.now ≡ drop SIZE bytes.now) }
        ensures fault { IfErr result (λ f. Err f ≡ read counts number bytes.now) };
}

// The body of a rule: the number of its record.
impl Item for u16 {
    const SIZE: usize = 2;

    ghost SIZE = { 2 };

    ghost read = { λ c. body_at c.exprs };

    fn take(counts: Counts, number: u16, bytes: &[u8]) -> Result<(u16, &[u8]), Fault> {
        let [high, low, rest @ ..] = bytes else {
            unreachable!()
        };
        let body = u16::from_be_bytes([*high, *low]);
        if body < counts.exprs {
            Ok((body, rest))
        } else {
            Err(Fault::new(FaultKind::PartNotAllowed, Section::Rules, number))
        }
    }
}

// The items of a section in their order, or the first fault.
pub(crate) fn read_items<T: Item>(
    heap: Global,
    section: &Piece<'_>,
    counts: Counts,
) -> Result<Vec<T>, CheckError>
    requires { length section.now.bytes.now ≡ section.now.count * T.SIZE }
    ensures { Told vec_items (λ v. v ≡ each (T.read counts) T.SIZE section.now.count 0 section.now.bytes.now) result }
{
    let mut items = Vec::new(heap);
    let mut rest = section.bytes;
    // That an item is taken by a slice pattern, with the rest of the bytes as its tail, is a rule of the project; so the loop goes
    // over numbers, beside the bytes that are left.
    for number in 0..section.count {
        let (item, after) = T::take(counts, number, rest)?;
        items.push(item)?;
        rest = after;
    }
    Ok(items)
}
