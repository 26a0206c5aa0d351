ghost use Rattle.std.specs.Prelude.{◌≡◌, ◌<◌, ◌≤◌, length, IfSome};
ghost use Rattle.form.specs.Verdict.{unless, lawful};
ghost use Rattle.grammar.specs.Views.{Told, same};

use crate::error::CheckError;
use analysis::Analysis;
use form::fault::{Fault, FaultKind, Section};
use form::rules::Rules;
use nesting::first_too_deep;
use std::alloc::Global;

// A fault of this kind at the number that was found, or none.
fn none_at_fault(found: Option<usize>, kind: FaultKind, section: Section) -> Result<(), Fault>
    requires { IfSome found (λ k. k < 65536) }
    ensures { result ≡ unless kind section found }
{
    match found {
        // The cast is proved to lose nothing: `try_from` would add an error that cannot come.
        Some(k) => Err(Fault::new(kind, section, k as u16)),
        None => Ok(()),
    }
}

// No record is nested too deep, no repeat has a part that may take nothing, and no rule is left recursive.
pub(crate) fn hold_laws(heap: Global, rules: Rules<'_>) -> Result<(), CheckError>
    requires { (length rules.exprs.now ≤ 512) × (length rules.bodies.now ≤ 64) }
    ensures { Told same (λ v. v ≡ lawful rules.entry.exprs.now rules.entry.bodies.now) result }
{
    let deep = first_too_deep(heap, rules.exprs)?;
    none_at_fault(deep, FaultKind::NestedTooDeep, Section::Expressions)?;
    let analysis = Analysis::new(heap, rules)?;
    let repeat = analysis.first_nullable_repeat();
    none_at_fault(repeat, FaultKind::NullableRepeat, Section::Expressions)?;
    let recursive = analysis.first_left_recursive(heap)?;
    none_at_fault(recursive, FaultKind::LeftRecursion, Section::Rules)?;
    Ok(())
}
