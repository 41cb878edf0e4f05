//! Digests standard input by SHA-256 and by SHA3-256, and prints a line for each as `sha256sum` does.
//! Input of more than 16,777,216 bytes gives the line `refused 16`.
#![tactic(auto)]

ghost use Rattle.std.specs.Prelude.{◌≡◌, ℕ, List, ◌++◌, IfOk, codes};
ghost use Rattle.digest.specs.Took.{Took};
ghost use Rattle.digest_line.specs.Hex.{hex_of};
ghost use Rattle.sha256.specs.Sha.{sha256 as Sha};
ghost use Rattle.sha256.specs.Streams.{Holds};
ghost use Rattle.sha3.specs.Sha3.{sha3 as Keccak256};
ghost use Rattle.sha3.specs.Streams.{Holds as Absorbed};

use digest::interface::Digest;
use digest::refusal::Refusal;
use digest_line::line::digest_line;
use sha3::state::Sha3;
use sha256::state::Sha256;
use std::alloc::{AllocError, Global};
use std::io;
use std::io::{Read, Write};

/// The digests that are made of one input: a further one is a further field.
#[derive(Drop)]
struct Digests {
    sha256: Sha256,
    sha3: Sha3,
}

impl Digests {
    fn start() -> Digests {
        Digests {
            sha256: Sha256::start(),
            sha3: Sha3::start(),
        }
    }

    /// Gives the block to each digest. All have the same limit, so one refuses where all do.
    fn take(&mut self, block: &[u8]) -> Result<(), Refusal> {
        self.sha256.take(block)?;
        self.sha3.take(block)
    }

    /// A line for each digest.
    fn lines(&self, heap: Global) -> Result<Vec<u8>, AllocError>
        ensures { (xs : List ℕ) → Holds self.now.sha256.stream xs → Absorbed self.now.sha3.stream xs
            → IfOk result (λ lines. lines.items ≡ ((hex_of (Sha xs) ++ codes "  -\n") ++ hex_of (Keccak256 xs)) ++ codes "  -\n") }
    {
        let line = digest_line(heap, b"", &self.sha256, b"  -\n")?;
        digest_line(heap, line.as_slice(), &self.sha3, b"  -\n")
    }
}

/// Why the input has no digests.
#[derive(Drop)]
enum InputError {
    Refused(Refusal),
    Failed(io::Error),
}

impl From<Refusal> for InputError {
    fn from(refusal: Refusal) -> InputError {
        InputError::Refused(refusal)
    }
}

impl From<io::Error> for InputError {
    fn from(error: io::Error) -> InputError {
        InputError::Failed(error)
    }
}

/// Reads a block of standard input and gives it to the digests; answers how many bytes came.
fn take_block(rt: &HostRuntime, digests: &mut Digests) -> Result<usize, InputError> {
    let mut block = [0u8; 65536];
    let count = rt.stdin().read(&mut block)?;
    digests.take(&block[..count])?;
    Ok(count)
}

/// Gives all of standard input to the digests.
fn take_input(rt: &HostRuntime, digests: &mut Digests) -> Result<(), InputError> {
    // Nothing but the input says when it ends, and every function is proved to end: more turns than it can have.
    for _ in 0..u64::MAX {
        if take_block(rt, digests)? == 0 {
            break;
        }
    }
    Ok(())
}

fn run(rt: &HostRuntime) -> anyhow::Result<()> {
    let mut digests = Digests::start();
    match take_input(rt, &mut digests) {
        Ok(()) => {
            let lines = digests.lines(rt.alloc())?;
            rt.stdout().write_all(lines.as_slice())?;
        }
        Err(InputError::Refused(refusal)) => {
            let number = refusal.number();
            println!(rt; "refused {number}")?;
        }
        Err(InputError::Failed(error)) => return Err(error.into()),
    }
    Ok(())
}

fn main(rt: HostRuntime) -> anyhow::Result<()> {
    run(&rt)
}
