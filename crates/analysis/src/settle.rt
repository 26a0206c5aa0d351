ghost use Rattle.std.specs.Prelude.{◌≡◌, ◌<◌, length};
ghost use Rattle.form.specs.Tables.{only, tested, joined};
ghost use Rattle.analysis.specs.Entries.{settled_records};

use crate::question::{Question, is_marked};
use form::expr::Expr;
use form::rules::Rules;

// The answer for every record, from the last to the first, in a table that is filled anew. The table is lent: one serves all rounds
// of all rules, since to make one for each takes time, most where grammars are small, and may fail.
pub(crate) fn answer_all<Q: Question>(
    question: &Q,
    exprs: &[Expr],
    marks: &[bool],
    table: &mut [bool],
)
    requires { length table.old ≡ length exprs.now }
    ensures { table.new ≡ tested (Q.test question.now) exprs.now marks.now }
{
    table.fill(false);
    // By number: over `exprs.iter().enumerate().rev()` the proof did not close, and a chain that reads what it writes is no plainer.
    for e in (0..exprs.len()).rev() {
        table[e] = question.answer(exprs[e], marks, table);
    }
}

// Marks the rules whose body the table marks, beside those that are marked.
fn join(rules: &Rules<'_>, table: &[bool], marks: &mut [bool])
    requires { length marks.old ≡ length rules.now.bodies.now }
    ensures { marks.new ≡ joined rules.now.exprs.now rules.now.bodies.now table.now marks.old }
{
    for (rule, mark) in marks.iter_mut().enumerate() {
        *mark |= is_marked(table, rules.body(rule));
    }
}

// Marks more rules in as many rounds as there are rules, which leaves none to mark; then answers the question for every record.
pub(crate) fn settle<Q: Question>(
    question: &Q,
    rules: &Rules<'_>,
    marks: &mut [bool],
    table: &mut [bool],
)
    requires marks { length marks.old ≡ length rules.now.bodies.now }
    requires table { length table.old ≡ length rules.now.exprs.now }
    ensures { table.new ≡ settled_records (Q.test question.now) rules.now.exprs.now rules.now.bodies.now marks.old }
{
    for _round in 0..rules.bodies.len() {
        answer_all(question, rules.exprs, marks, table);
        join(rules, table, marks);
    }
    answer_all(question, rules.exprs, marks, table);
}

// Marks one rule alone; past the end there is none to mark. An index behind a test: with `get_mut` behind `fill` two goals stayed open.
pub(crate) fn mark_only(marks: &mut [bool], rule: usize)
    ensures { marks.new ≡ only (length marks.old) rule }
{
    marks.fill(false);
    if rule < marks.len() {
        marks[rule] = true;
    }
}
