//! Digests standard input as often as the first argument says, once without one, and prints the digest's line.
//! The second argument `sha3-256` asks for SHA3-256 in place of SHA-256. For measuring: see docs/BENCHMARKS.md.
#![tactic(auto)]

use digest::digesting::digest_bytes;
use digest::interface::Digest;
use digest_line::line::hex_line;
use sha3::state::Sha3;
use sha256::state::Sha256;
use std::env;
use std::io::{Read, Write};

#[derive(Clone, Copy)]
enum Algorithm {
    Sha256,
    Sha3,
}

impl Algorithm {
    /// The algorithm that a word asks for: SHA-256, unless the word is `sha3-256`.
    fn named(word: &str) -> Algorithm {
        match word {
            "sha3-256" => Algorithm::Sha3,
            _ => Algorithm::Sha256,
        }
    }
}

/// What is asked for.
#[derive(Drop)]
struct Order {
    times: u32,
    algorithm: Algorithm,
}

fn repeat<G: Digest>(bytes: &[u8], times: u32, area: &mut [u8]) {
    for _ in 0..times {
        let _ = digest_bytes::<G>(bytes, area);
    }
}

fn read_order(rt: &HostRuntime) -> anyhow::Result<Order> {
    let mut args = env::args(rt)?;
    let _program = args.next();
    let times = match args.next() {
        Some(word) => word.as_str().parse::<u32>()?,
        None => 1,
    };
    let algorithm = match args.next() {
        Some(word) => Algorithm::named(word.as_str()),
        None => Algorithm::Sha256,
    };
    Ok(Order { times, algorithm })
}

fn run(rt: &HostRuntime) -> anyhow::Result<()> {
    let mut bytes = Vec::new(rt.alloc());
    rt.stdin().read_to_end(&mut bytes)?;
    let mut area = [0u8; 32];
    let order = read_order(rt)?;
    match order.algorithm {
        Algorithm::Sha256 => repeat::<Sha256>(bytes.as_slice(), order.times, &mut area),
        Algorithm::Sha3 => repeat::<Sha3>(bytes.as_slice(), order.times, &mut area),
    }
    let line = hex_line(rt.alloc(), b"", &area, b"  -\n")?;
    rt.stdout().write_all(line.as_slice())?;
    Ok(())
}

fn main(rt: HostRuntime) -> anyhow::Result<()> {
    run(&rt)
}
