// Holds the check of grammar files to a table on standard input. A line is what is expected, the case's name, and the file's
// bytes in base 16, `61*1024` for a run; all three behind each other with ` | ` between. A case whose name begins with `front`
// is of a grammar at the front of the bytes. A line that begins with # is passed over.
#![tactic(auto)]

ghost use Rattle.std.specs.Prelude.{◌<◌};

use anyhow::anyhow;
use grammar::error::CheckError;
use grammar::grammar::Grammar;
use std::alloc::{AllocError, Global};

// What a digit in base 16 counts; another sign counts nothing. The library's `to_digit` counts capitals too, and would need a
// test for them before it.
fn digit(sign: u8) -> u8
    ensures { result < 16 }
{
    match sign {
        b'0'..=b'9' => sign - b'0',
        b'a'..=b'f' => sign - b'a' + 10,
        _ => 0,
    }
}

// Adds the bytes that the digits stand for.
fn put_bytes(out: &mut Vec<u8>, digits: &[u8]) -> Result<(), AllocError> {
    for pair in digits.chunks(2) {
        if let [high, low] = pair {
            out.push(digit(*high) * 16 + digit(*low))?;
        }
    }
    Ok(())
}

// Adds a run of bytes, as often as it says.
fn put_run(out: &mut Vec<u8>, run: &str) -> Result<(), AllocError> {
    match run.split_once('*') {
        Some((digits, times)) => {
            for _ in 0..times.parse::<u16>().unwrap_or(0) {
                put_bytes(out, digits.as_bytes())?;
            }
            Ok(())
        }
        None => put_bytes(out, run.as_bytes()),
    }
}

// The bytes of a case.
fn read_file(heap: Global, runs: &str) -> Result<Vec<u8>, AllocError> {
    let mut out = Vec::new(heap);
    for run in runs.split(' ') {
        put_run(&mut out, run)?;
    }
    Ok(out)
}

// What is told of a file that was checked: that it is accepted, or where the grammar at its front ends, or its fault. It is no
// `Display`, since want of memory is passed on, as the allocation's own error, and not printed.
fn told(heap: Global, checked: Result<Option<usize>, CheckError>) -> anyhow::Result<String> {
    let text = match checked {
        Ok(None) => String::from_str(heap, "accepted")?,
        Ok(Some(end)) => format!(in heap; "ends at {end}")?,
        Err(CheckError::Faulty(fault)) => format!(in heap; "{fault}")?,
        Err(CheckError::OutOfMemory) => return Err(AllocError.into()),
    };
    Ok(text)
}

// One line of the table: prints the case and what the check tells of it, and says whether that was expected.
fn run_case(rt: &(impl Print + AllocGlobal), line: &str) -> anyhow::Result<bool> {
    let heap = rt.alloc();
    let Some((expected, rest)) = line.split_once(" | ") else {
        return Err(anyhow!("a line with no name"));
    };
    let Some((name, runs)) = rest.split_once(" |") else {
        return Err(anyhow!("a line with no bytes"));
    };
    let file = read_file(heap, runs)?;
    let checked = if name.starts_with("front") {
        Grammar::check_front(heap, &file).map(|(_, end)| Some(end))
    } else {
        Grammar::check(heap, &file).map(|_| None)
    };
    let answer = told(heap, checked)?;
    let right = answer.as_str() == expected;
    let mark = if right { "ok" } else { "NOT AS EXPECTED" };
    println!(rt; "{mark} {name}: {answer}")?;
    Ok(right)
}

fn main(rt: HostRuntime) -> anyhow::Result<()> {
    let mut cases = 0u32;
    let mut right = 0u32;
    for line in rt.lines(rt.alloc()) {
        let line = line?;
        if !line.as_str().starts_with('#') {
            cases = cases.saturating_add(1);
            if run_case(&rt, line.as_str())? {
                right = right.saturating_add(1);
            }
        }
    }
    println!(rt; "{right} of {cases} cases as expected")?;
    Ok(())
}
