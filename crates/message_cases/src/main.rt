//! Runs cases: each line of standard input has a name, a file and the line that `plan_form` must print of it, with
//! spaces between. A file is hexadecimal digits, and may end with `+` and how many zero bytes follow. What is expected
//! was made by another program: tests/make_cases.py.
#![tactic(auto)]

use hex_digits::read_hex;
use plan_line::tell_form;
use std::alloc::{AllocError, Global};
use std::io::{BufRead, BufReader};

/// What came of a case.
#[derive(Drop)]
enum Outcome {
    AsExpected,
    /// Another line was told.
    Told(String),
    /// The line is no case.
    NoCase,
}

/// The file that a text gives; none where it is no such text.
fn file_of(heap: Global, text: &str) -> Result<Option<Vec<u8>>, AllocError> {
    let Some((digits, count)) = text.split_once('+') else {
        return read_hex(heap, text.as_bytes());
    };
    let Ok(zeros) = count.parse::<u32>() else {
        return Ok(None);
    };
    let Some(mut file) = read_hex(heap, digits.as_bytes())? else {
        return Ok(None);
    };
    file.resize(file.len().saturating_add(zeros as usize), 0)?;
    Ok(Some(file))
}

/// Whether the expected line is told of the file.
fn try_file(heap: Global, text: &str, expected: &str) -> Result<Outcome, AllocError> {
    let Some(file) = file_of(heap, text)? else {
        return Ok(Outcome::NoCase);
    };
    let told = tell_form(heap, file.as_slice())?;
    let line = format!(in heap; "{expected}\n")?;
    if told == line {
        Ok(Outcome::AsExpected)
    } else {
        Ok(Outcome::Told(told))
    }
}

/// Tries the case of a line and prints what came of it. Answers whether that was expected.
fn run_case(rt: &HostRuntime, line: &str) -> anyhow::Result<bool> {
    let Some((name, rest)) = line.split_once(' ') else {
        println!(rt; "no case: {line}")?;
        return Ok(false);
    };
    let Some((text, expected)) = rest.split_once(' ') else {
        println!(rt; "{name}: no case")?;
        return Ok(false);
    };
    match try_file(rt.alloc(), text, expected)? {
        Outcome::AsExpected => {
            println!(rt; "{name}: as expected")?;
            Ok(true)
        }
        Outcome::Told(told) => {
            print!(rt; "{name}: expected {expected}, told {told}")?;
            Ok(false)
        }
        Outcome::NoCase => {
            println!(rt; "{name}: no file")?;
            Ok(false)
        }
    }
}

fn run(rt: &HostRuntime) -> anyhow::Result<()> {
    let mut cases = 0u32;
    let mut met = 0u32;
    for line in BufReader::new(rt.alloc(), rt.stdin())?.lines(rt.alloc()) {
        cases = cases.saturating_add(1);
        if run_case(rt, line?.as_str())? {
            met = met.saturating_add(1);
        }
    }
    println!(rt; "{cases} cases, {met} as expected")?;
    Ok(())
}

fn main(rt: HostRuntime) -> anyhow::Result<()> {
    run(&rt)
}
