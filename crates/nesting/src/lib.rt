// How deep the records of a grammar are nested.
#![tactic(auto)]

ghost use Rattle.std.specs.Prelude.{◌≡◌, ◌-◌, ◌<◌, length, replicate, vec_len, IfOk, IfSome};
ghost use Rattle.form.specs.Records.{parts};
ghost use Rattle.form.specs.Tables.{deepest, filled, nestings};
ghost use Rattle.form.specs.Verdict.{first_too_deep};
ghost use Rattle.nesting.specs.Nesting.{one_more, TellsNesting};

use form::expr::Expr;
use std::alloc::{AllocError, Global};

// How deep the deepest part of an expression is nested, by a table of nestings; 0 where it has no part.
fn deepest_part(x: Expr, table: &[usize]) -> usize
    ensures { result ≡ deepest table.now (parts x) }
{
    let nesting = |part: u16| table.get(usize::from(part)).copied().unwrap_or(0);
    match x {
        Expr::Empty
        | Expr::Text { .. }
        | Expr::Range { .. }
        | Expr::Rule { .. }
        | Expr::Tag { .. } => 0,
        Expr::Sequence { first, second } | Expr::Choice { first, second } => {
            nesting(first).max(nesting(second))
        }
        Expr::Repeat { part }
        | Expr::Ahead { part }
        | Expr::Absent { part }
        | Expr::Node { part }
        | Expr::Link { part }
        | Expr::Fold { part } => nesting(part),
    }
}

// Works out how deep the records from `number` on are nested, each later one before those that have it as a part. That this
// is a recursion over the records' numbers, and no loop, is a rule of the project.
fn nest(exprs: &[Expr], number: usize, table: &mut [usize])
    requires { table.old ≡ replicate (length exprs.now) 0 }
    ensures { table.new ≡ filled (one_more exprs.now) number (length exprs.now - number) table.old }
{
    if number < exprs.len() {
        nest(exprs, number + 1, table);
        table[number] = deepest_part(exprs[number], table) + 1;
    }
}

// By record number, how deep each record is nested: one more than its deepest part. A list beside the records, since these are
// lent: to copy them into one list with the numbers is no plainer.
pub fn nestings(heap: Global, exprs: &[Expr]) -> Result<Vec<usize>, AllocError>
    ensures is { IfOk result (λ v. v.items ≡ nestings exprs.now) }
    ensures tells { IfOk result (λ v. TellsNesting exprs.now v.items) }
    ensures sized { IfOk result (λ v. vec_len v ≡ length exprs.now) }
{
    let mut table = vec![in heap; 0; exprs.len()]?;
    nest(exprs, 0, &mut table);
    Ok(table)
}

// The first record that is nested more than 32 deep. That it is one of the records is a clause of each such look: a type for a
// number below a list's length is no plainer.
pub fn first_too_deep(heap: Global, exprs: &[Expr]) -> Result<Option<usize>, AllocError>
    ensures is { IfOk result (λ o. o ≡ first_too_deep exprs.now) }
    ensures within { IfOk result (λ o. IfSome o (λ k. k < length exprs.now)) }
{
    let table = nestings(heap, exprs)?;
    Ok(table.iter().position(|&depth| depth > 32))
}
