//! Prints the form of the first signer of the file on standard input, or why the file is refused.
#![tactic(auto)]

use plan_line::tell_form;
use std::io;
use std::io::Read;

/// One byte more than the longest file: enough to see that a file is too long.
const ENOUGH: u64 = 65_536;

// The program `outline` differs in one call; a `main` for both would be a crate of its own, and longer.
fn main(rt: HostRuntime) -> io::Result<()> {
    let mut file = Vec::new(rt.alloc());
    rt.stdin().take(ENOUGH).read_to_end(&mut file)?;
    let text = tell_form(rt.alloc(), &file)?;
    rt.print(text)
}
