// Reads a grammar file from standard input, and says what is in it, or what is wrong with it and where.
#![tactic(auto)]

mod records;
mod rules;

use grammar::error::CheckError;
use grammar::grammar::Grammar;
use records::print_records;
use rules::print_rules;
use std::io::Read;

// How much of everything there is, then each rule, then each record.
fn print_grammar(rt: &(impl Print + AllocGlobal), grammar: &Grammar) -> anyhow::Result<()> {
    println!(rt;
        "grammar: {} bytes of text, {} records, {} rules",
        grammar.text.len(),
        grammar.exprs.len(),
        grammar.rules.len()
    )?;
    print_rules(rt, grammar)?;
    print_records(rt, grammar)?;
    Ok(())
}

fn main(rt: HostRuntime) -> anyhow::Result<()> {
    let mut input = Vec::new(rt.alloc());
    rt.stdin().read_to_end(&mut input)?;
    match Grammar::check(rt.alloc(), &input) {
        Ok(grammar) => print_grammar(&rt, &grammar),
        Err(CheckError::Faulty(fault)) => {
            println!(rt; "{fault}")?;
            Ok(())
        }
        Err(error) => Err(error.into()),
    }
}
