ghost use Rattle.std.specs.Prelude.{◌≡◌};
ghost use Rattle.form.specs.Records.{at, body};

use crate::expr::Expr;

// The rules of a grammar: the records of its expressions and, by rule number, the record that is each rule's body.
#[derive(Clone, Copy, Debug, PartialEq, Eq)]
pub struct Rules<'a> {
    pub exprs: &'a [Expr],
    pub bodies: &'a [u16],
}

impl Rules<'_> {
    // The expression of a record; past the last one a range, which has no part and no rule.
    pub fn expr(&self, number: usize) -> Expr
        ensures { result ≡ at self.now.exprs.now number }
    {
        self.exprs
            .get(number)
            .copied()
            .unwrap_or(Expr::Range { low: 0, high: 0 })
    }

    // The record that is a rule's body; past the last rule it is past the records.
    pub fn body(&self, rule: usize) -> usize
        ensures { result ≡ body self.now.exprs.now self.now.bodies.now rule }
    {
        self.bodies
            .get(rule)
            .map_or(self.exprs.len(), |&body| usize::from(body))
    }
}
