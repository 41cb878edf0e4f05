//! Prints the outline of the file on standard input: a line for each element, or why it is refused.
#![tactic(auto)]

use listing::tell_outline;
use std::io;
use std::io::Read;

/// One byte more than the longest file: enough to see that a file is too long.
const ENOUGH: u64 = 65_536;

// The program `plan_form` differs in one call; a `main` for both would be a crate of its own, and longer.
fn main(rt: HostRuntime) -> io::Result<()> {
    let mut file = Vec::new(rt.alloc());
    rt.stdin().take(ENOUGH).read_to_end(&mut file)?;
    let text = tell_outline(rt.alloc(), &file)?;
    rt.print(text)
}
