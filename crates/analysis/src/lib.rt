// What the records of a grammar come to: which may take nothing, which rules are heads of them, and which rules are left recursive.
#![tactic(auto)]

ghost use Rattle.std.specs.Prelude.{◌≡◌, ℕ, ◌<◌, length, Ok, IfOk, IfSome};
ghost use Rattle.form.specs.Tables.{marked, nullables, repeats_marked, left_recursive};
ghost use Rattle.form.specs.Verdict.{first_nullable_repeat, first_left_recursive};
ghost use Rattle.analysis.specs.Entries.{is_head};
ghost use Rattle.analysis.specs.Tells.{MarksNullable, HeadMarks, MarksHeads};

mod question;
mod settle;

use form::expr::Expr;
use form::rules::Rules;
use question::{HasHead, TakesNothing, is_marked};
use settle::{answer_all, mark_only, settle};
use std::alloc::{AllocError, Global};

// Whether an expression is a repeat of a marked record.
fn repeats_marked(x: Expr, table: &[bool]) -> bool
    ensures { result ≡ repeats_marked table.now x }
{
    matches!(x, Expr::Repeat { part } if is_marked(table, usize::from(part)))
}

// A grammar's rules, and what every question about heads needs of them: which records may take nothing.
#[derive(Drop)]
pub struct Analysis<'a> {
    pub rules: Rules<'a>,
    // by record number; a list beside the records, since these are lent
    pub nullable: Vec<bool>,
    ghost is_nullable: { nullable.items ≡ nullables rules.exprs.now rules.bodies.now },
}

impl<'a> Analysis<'a> {
    // Works out which records may take nothing. In records whose parts stand behind them, as a grammar's do, the marks say
    // exactly which are nullable.
    pub fn new(heap: Global, rules: Rules<'a>) -> Result<Analysis<'a>, AllocError>
        ensures of { IfOk result (λ a. a.rules ≡ rules.entry) }
        ensures is { IfOk result (λ a. a.nullable.items ≡ nullables rules.entry.exprs.now rules.entry.bodies.now) }
        ensures tells { IfOk result (λ a. MarksNullable rules.entry.exprs.now rules.entry.bodies.now a.nullable.items) }
    {
        let mut marks = vec![in heap; false; rules.bodies.len()]?;
        let mut nullable = vec![in heap; false; rules.exprs.len()]?;
        settle(&TakesNothing, &rules, &mut marks, &mut nullable);
        Ok(Analysis { rules, nullable })
    }

    // The question which records have a marked rule as a head.
    fn has_head(&self) -> HasHead<'_>
        ensures { result.nullable.now ≡ self.now.nullable.items }
    {
        HasHead {
            nullable: &self.nullable,
        }
    }

    // Whether a rule is a head of a record; the marks and the table are for its own use.
    fn is_head(&self, number: usize, rule: usize, marks: &mut [bool], table: &mut [bool]) -> bool
        requires marks { length marks.old ≡ length self.now.rules.bodies.now }
        requires table { length table.old ≡ length self.now.rules.exprs.now }
        ensures { result ≡ is_head self.now.rules.exprs.now self.now.rules.bodies.now number rule }
    {
        mark_only(marks, rule);
        answer_all(&self.has_head(), self.rules.exprs, marks, table);
        is_marked(table, number)
    }

    // By rule number, which rules are heads of a record; a number past the records has none.
    pub fn heads(&self, heap: Global, number: usize) -> Result<Vec<bool>, AllocError>
        ensures is { IfOk result (λ v. HeadMarks self.now.rules.exprs.now self.now.rules.bodies.now number v.items) }
        ensures tells { IfOk result (λ v. MarksHeads self.now.rules.exprs.now self.now.rules.bodies.now number v.items) }
    {
        let mut marks = vec![in heap; false; self.rules.bodies.len()]?;
        let mut table = vec![in heap; false; self.rules.exprs.len()]?;
        let mut heads = vec![in heap; false; self.rules.bodies.len()]?;
        for (rule, head) in heads.iter_mut().enumerate() {
            *head = self.is_head(number, rule, &mut marks, &mut table);
        }
        Ok(heads)
    }

    // The first repeat of what may take nothing.
    pub fn first_nullable_repeat(&self) -> Option<usize>
        ensures is { result ≡ first_nullable_repeat self.now.rules.exprs.now self.now.rules.bodies.now }
        ensures within { IfSome result (λ k. k < length self.now.rules.exprs.now) }
    {
        self.rules
            .exprs
            .iter()
            .position(|&x| repeats_marked(x, &self.nullable))
    }

    // Whether a rule can come back to itself with no byte taken; the marks and the table are for its own use. Beside `is_head` this
    // settles the marks: one function of both, by a number of rounds, is no plainer.
    fn is_left_recursive(&self, rule: usize, marks: &mut [bool], table: &mut [bool]) -> bool
        requires marks { length marks.old ≡ length self.now.rules.bodies.now }
        requires table { length table.old ≡ length self.now.rules.exprs.now }
        ensures { result ≡ left_recursive self.now.rules.exprs.now self.now.rules.bodies.now rule }
    {
        mark_only(marks, rule);
        settle(&self.has_head(), &self.rules, marks, table);
        is_marked(table, self.rules.body(rule))
    }

    // The first rule that can come back to itself with no byte taken. No rule behind it is asked. A loop and no `position` over the
    // rules' numbers: its closure would write into the lent tables, and with that the proof did not close.
    pub fn first_left_recursive(&self, heap: Global) -> Result<Option<usize>, AllocError>
        ensures is { IfOk result (λ o. o ≡ first_left_recursive self.now.rules.exprs.now self.now.rules.bodies.now) }
        ensures within { IfOk result (λ o. IfSome o (λ r. r < length self.now.rules.bodies.now)) }
    {
        let mut marks = vec![in heap; false; self.rules.bodies.len()]?;
        let mut table = vec![in heap; false; self.rules.exprs.len()]?;
        for rule in 0..self.rules.bodies.len() {
            if self.is_left_recursive(rule, &mut marks, &mut table) {
                return Ok(Some(rule));
            }
        }
        Ok(None)
    }
}

#[cfg(test)]
mod tests {
    use super::*;
    use std::test::Fail;

    // Rule 0 is rule 1 or itself behind nothing, and rule 1 a byte: so rule 0 has both as heads, and comes back to itself.
    #[test]
    fn finds_heads_and_left_recursion(rt: HostRuntime) -> Result<(), Fail> {
        let exprs = [
            Expr::Choice {
                first: 1,
                second: 2,
            },
            Expr::Rule { rule: 1 },
            Expr::Sequence {
                first: 3,
                second: 4,
            },
            Expr::Repeat { part: 5 },
            Expr::Rule { rule: 0 },
            Expr::Range { low: 0, high: 255 },
        ];
        let rules = Rules {
            exprs: &exprs,
            bodies: &[0, 5],
        };
        let analysis = Analysis::new(rt.alloc(), rules)?;
        let nullable = [false, false, false, true, false, false];
        assert_eq!(rt; analysis.nullable.as_slice(), nullable.as_slice());
        assert_eq!(rt; analysis.first_nullable_repeat(), None);
        let heads = analysis.heads(rt.alloc(), 0)?;
        assert_eq!(rt; heads.as_slice(), [true, true].as_slice());
        assert_eq!(rt; analysis.first_left_recursive(rt.alloc())?, Some(0));
        Ok(())
    }

    // A repeat of a tag takes nothing for ever.
    #[test]
    fn finds_a_nullable_repeat(rt: HostRuntime) -> Result<(), Fail> {
        let rules = Rules {
            exprs: &[Expr::Repeat { part: 1 }, Expr::Tag { tag: 7 }],
            bodies: &[0],
        };
        let analysis = Analysis::new(rt.alloc(), rules)?;
        assert_eq!(rt; analysis.first_nullable_repeat(), Some(0));
        Ok(())
    }
}
