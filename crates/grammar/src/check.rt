ghost use Rattle.std.specs.Prelude.{◌≡◌};
ghost use Rattle.form.specs.Verdict.{ended, contents, verdict, front_verdict};
ghost use Rattle.form.specs.Meaning.{Meant, FrontMeant};
ghost use Rattle.grammar.specs.Views.{Told, contents_of, front_of, layout_of, Split};

use crate::error::CheckError;
use crate::grammar::Grammar;
use crate::items::read_items;
use crate::laws::hold_laws;
use crate::sections::{Layout, split};
use form::expr::{Counts, Expr};
use form::fault::{Fault, FaultKind, Section};
use form::rules::Rules;
use std::alloc::Global;

// The rules end the file: no bytes are behind them.
fn none_behind(after: &[u8]) -> Result<(), Fault>
    ensures { result ≡ ended after.now }
{
    if after.is_empty() {
        Ok(())
    } else {
        Err(Fault::new(FaultKind::TrailingBytes, Section::File, 0))
    }
}

// The grammar that the sections hold, or the first fault in records, rules and the whole.
fn read_contents(heap: Global, layout: &Layout<'_>) -> Result<Grammar, CheckError>
    requires { Split (layout_of layout.now) }
    ensures { Told contents_of (λ v. v ≡ contents (layout_of layout.now)) result }
{
    let counts = Counts {
        text: layout.text.count,
        exprs: layout.exprs.count,
        rules: layout.rules.count,
    };
    let exprs = read_items::<Expr>(heap, &layout.exprs, counts)?;
    let rules = read_items::<u16>(heap, &layout.rules, counts)?;
    hold_laws(
        heap,
        Rules {
            exprs: &exprs,
            bodies: &rules,
        },
    )?;
    let text = layout.text.bytes.to_vec(heap)?;
    Ok(Grammar { text, exprs, rules })
}

impl Grammar {
    // The grammar that a whole file is, or the file's first fault in the order of the checks.
    pub fn check(heap: Global, bytes: &[u8]) -> Result<Grammar, CheckError>
        ensures is { Told contents_of (λ v. v ≡ verdict bytes.now) result }
        ensures means { Told contents_of (Meant bytes.now) result }
    {
        let layout = split(bytes)?;
        none_behind(layout.rules.after)?;
        read_contents(heap, &layout)
    }

    // The grammar at the front of longer bytes, and how many of them are its own: it ends by its counts.
    pub fn check_front(heap: Global, bytes: &[u8]) -> Result<(Grammar, usize), CheckError>
        ensures is { Told front_of (λ v. v ≡ front_verdict bytes.now) result }
        ensures means { Told front_of (FrontMeant bytes.now) result }
    {
        let layout = split(bytes)?;
        let grammar = read_contents(heap, &layout)?;
        let end = bytes.len() - layout.rules.after.len();
        Ok((grammar, end))
    }
}
