use analysis::Analysis;
use grammar::grammar::Grammar;
use nesting::nestings;
use std::fmt;

// The numbers that are marked, each behind a space, or `none`.
#[derive(Clone, Copy)]
struct Marked<'a>(&'a [bool]);

impl fmt::Display for Marked<'_> {
    fn fmt<W: fmt::Write>(&self, f: &mut fmt::Formatter<W>) -> fmt::Result {
        if !self.0.contains(&true) {
            return f.write_str(" none");
        }
        for (number, marked) in self.0.iter().enumerate() {
            if *marked {
                write!(f, " {number}")?;
            }
        }
        Ok(())
    }
}

// Each rule: its body, how deep that is nested, whether it may take nothing, and the rules it can ask first.
pub(crate) fn print_rules(
    rt: &(impl Print + AllocGlobal),
    grammar: &Grammar,
) -> anyhow::Result<()> {
    let analysis = Analysis::new(rt.alloc(), grammar.rules())?;
    let nestings = nestings(rt.alloc(), &grammar.exprs)?;
    for (number, body) in grammar.rules.iter().enumerate() {
        let body = usize::from(*body);
        let nesting = nestings.get(body).copied().unwrap_or(0);
        let taken = if analysis.nullable.get(body) == Some(&true) {
            "may take nothing"
        } else {
            "takes a byte"
        };
        // Before the heads are looked for: where there is no memory for those, what is known of the rule is printed all the same.
        print!(rt; "rule {number}: record {body}, nesting {nesting}, {taken}, heads")?;
        let heads = analysis.heads(rt.alloc(), body)?;
        println!(rt; "{}", Marked(&heads))?;
    }
    Ok(())
}
