//! Digests published and made-up messages, each given in blocks of several sizes, and prints a line for each.
//! What must be printed was made by another program: tests/make_digest_vectors.
#![tactic(auto)]

ghost use Rattle.std.specs.Prelude.{◌<◌};

use digest::interface::Digest;
use digest::refusal::Refusal;
use digest_line::line::digest_line;
use sha3::state::Sha3;
use sha256::state::Sha256;
use std::alloc::{AllocError, Global};
use std::io::Write;

/// Sizes of blocks around the digests' own.
const STEPS: [usize; 7] = [1, 63, 64, 65, 135, 136, 4096];

/// Lengths around those where a padding needs a further block.
const LENGTHS: [usize; 15] = [
    0, 1, 55, 56, 63, 64, 65, 119, 120, 128, 135, 136, 137, 271, 272,
];

/// The standard's example of 448 bits.
const BITS_448: &[u8; 56] = b"abcdbcdecdefdefgefghfghighijhijkijkljklmklmnlmnomnopnopq";

/// The standard's example of 896 bits.
const BITS_896: &[u8; 112] =
    b"abcdefghbcdefghicdefghijdefghijkefghijklfghijklmghijklmnhijklmnoijklmnopjklmnopqklmnopqrlmnopqrsmnopqrstnopqrstu";

/// Bytes that repeat every 251, so that no two blocks are alike.
fn pattern(heap: Global, length: usize) -> Result<Vec<u8>, AllocError> {
    (0..length).map(|i| (i % 251) as u8).collect(heap)
}

/// Gives the message to the state in blocks of `step` bytes; the last may be shorter.
fn feed<G: Digest>(state: &mut G, message: &[u8], step: usize) -> Result<(), Refusal>
    requires { 0 < step }
{
    for block in message.chunks(step) {
        state.take(block)?;
    }
    Ok(())
}

fn show<G: Digest>(
    rt: &HostRuntime,
    digest: &str,
    name: &str,
    message: &[u8],
    step: usize,
) -> anyhow::Result<()>
    requires { 0 < step }
{
    let mut state = G::start();
    if let Err(refusal) = feed(&mut state, message, step) {
        let number = refusal.number();
        println!(rt; "{digest} {name} by {step} refused {number}")?;
        return Ok(());
    }
    let front = format!(in rt.alloc(); "{digest} {name} by {step} ")?;
    let line = digest_line(rt.alloc(), front.as_str().as_bytes(), &state, b"\n")?;
    rt.stdout().write_all(line.as_slice())?;
    Ok(())
}

fn show_steps<G: Digest>(
    rt: &HostRuntime,
    digest: &str,
    name: &str,
    message: &[u8],
) -> anyhow::Result<()> {
    for step in STEPS {
        show::<G>(rt, digest, name, message, step)?;
    }
    Ok(())
}

fn show_all<G: Digest>(rt: &HostRuntime, digest: &str) -> anyhow::Result<()> {
    show_steps::<G>(rt, digest, "abc", b"abc")?;
    show_steps::<G>(rt, digest, "448-bits", BITS_448)?;
    show_steps::<G>(rt, digest, "896-bits", BITS_896)?;
    for length in LENGTHS {
        let message = pattern(rt.alloc(), length)?;
        let name = format!(in rt.alloc(); "pattern-{length}")?;
        show_steps::<G>(rt, digest, name.as_str(), message.as_slice())?;
    }
    let million = vec![in rt.alloc(); b'a'; 1000000]?;
    show_steps::<G>(rt, digest, "million-a", million.as_slice())
}

/// A further digest is a further line here and in the generator.
fn run(rt: &HostRuntime) -> anyhow::Result<()> {
    show_all::<Sha256>(rt, "sha256")?;
    show_all::<Sha3>(rt, "sha3-256")
}

fn main(rt: HostRuntime) -> anyhow::Result<()> {
    run(&rt)
}
