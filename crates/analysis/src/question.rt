ghost use Rattle.std.specs.Prelude.{◌≡◌};
ghost use Rattle.form.specs.Tables.{Test, marked, takes_nothing, has_head};

use form::expr::Expr;

// What is asked of each record of a grammar.
pub(crate) trait Question {
    ghost test: { Self → Test };

    // The answer for an expression, by the marked rules and the answers for later records.
    fn answer(&self, x: Expr, marks: &[bool], later: &[bool]) -> bool
        ensures { result ≡ test self.now marks.now later.now x };
}

// Whether a table marks a number; past its end it marks none.
pub(crate) fn is_marked(table: &[bool], number: usize) -> bool
    ensures { result ≡ marked table.now number }
{
    table.get(number).copied().unwrap_or(false)
}

// Whether a record may take nothing, where the marked rules may.
#[derive(Clone, Copy)]
pub(crate) struct TakesNothing;

impl Question for TakesNothing {
    ghost test = { λ _. takes_nothing };

    fn answer(&self, x: Expr, marks: &[bool], later: &[bool]) -> bool {
        let may = |part: u16| is_marked(later, usize::from(part));
        match x {
            Expr::Empty
            | Expr::Repeat { .. }
            | Expr::Ahead { .. }
            | Expr::Absent { .. }
            | Expr::Tag { .. } => true,
            Expr::Text { .. } | Expr::Range { .. } => false,
            Expr::Rule { rule } => is_marked(marks, usize::from(rule)),
            Expr::Sequence { first, second } => may(first) && may(second),
            Expr::Choice { first, second } => may(first) || may(second),
            Expr::Node { part } | Expr::Link { part } | Expr::Fold { part } => may(part),
        }
    }
}

// Whether a marked rule is a head of a record. A head may stand behind what may take nothing.
#[derive(Clone, Copy)]
pub(crate) struct HasHead<'a> {
    pub nullable: &'a [bool],
}

impl Question for HasHead<'_> {
    ghost test = { λ q. has_head q.nullable.now };

    fn answer(&self, x: Expr, marks: &[bool], later: &[bool]) -> bool {
        let has = |part: u16| is_marked(later, usize::from(part));
        match x {
            Expr::Empty | Expr::Text { .. } | Expr::Range { .. } | Expr::Tag { .. } => false,
            Expr::Rule { rule } => is_marked(marks, usize::from(rule)),
            Expr::Sequence { first, second } => {
                has(first) || (is_marked(self.nullable, usize::from(first)) && has(second))
            }
            Expr::Choice { first, second } => has(first) || has(second),
            Expr::Repeat { part }
            | Expr::Ahead { part }
            | Expr::Absent { part }
            | Expr::Node { part }
            | Expr::Link { part }
            | Expr::Fold { part } => has(part),
        }
    }
}
