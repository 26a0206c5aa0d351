use form::expr::Expr;
use grammar::grammar::Grammar;
use std::{fmt, io};

// Bytes in quotes: each itself where it is printable, a quote behind a `\`, and any other as its two digits in base 16.
#[derive(Clone, Copy)]
struct Quoted<'a>(&'a [u8]);

impl fmt::Display for Quoted<'_> {
    fn fmt<W: fmt::Write>(&self, f: &mut fmt::Formatter<W>) -> fmt::Result {
        f.write_str("\"")?;
        for &byte in self.0 {
            match byte {
                b'"' | b'\\' => write!(f, "\\{}", char::from(byte))?,
                b' '..=b'~' => write!(f, "{}", char::from(byte))?,
                _ => write!(f, "\\x{byte:02x}")?,
            }
        }
        f.write_str("\"")
    }
}

// A record as it is printed: its number, its kind and its fields; behind a text its bytes, and behind a range its lowest and its
// highest byte.
#[derive(Clone, Copy)]
struct Record<'a> {
    number: usize,
    expr: Expr,
    // the grammar's text
    text: &'a [u8],
}

impl fmt::Display for Record<'_> {
    fn fmt<W: fmt::Write>(&self, f: &mut fmt::Formatter<W>) -> fmt::Result {
        write!(f, "record {}: {}", self.number, self.expr)?;
        match self.expr {
            Expr::Text { start, length } => {
                let from = usize::from(start).min(self.text.len());
                let to = (usize::from(start) + usize::from(length)).min(self.text.len());
                write!(f, " {}", Quoted(&self.text[from..to]))
            }
            Expr::Range { low, high } => { write!(f, " {} to {}", Quoted(&[low]), Quoted(&[high])) }
            _ => Ok(()),
        }
    }
}

// Each record, in order.
pub(crate) fn print_records(rt: &impl Print, grammar: &Grammar) -> io::Result<()> {
    for (number, &expr) in grammar.exprs.iter().enumerate() {
        let text = &grammar.text;
        println!(rt; "{}", Record { number, expr, text })?;
    }
    Ok(())
}
