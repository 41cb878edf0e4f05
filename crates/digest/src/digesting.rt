//! Digesting that is proved once, for every digest and every source.
ghost use Rattle.std.specs.Prelude.{◌≡◌, ℕ, ◌+◌, ◌<◌, ◌≤◌, List, [], ◌++◌, length, Ok};
ghost use Rattle.std.specs.List.{flat_map};
ghost use Rattle.digest.specs.Took.{most, Digested, Wrote};
ghost use Rattle.digest.specs.TookAll.{TookAll};

use crate::interface::Digest;
use crate::refusal::Refusal;
use crate::source::Source;

/// How many bytes of a source are read at a time.
const BLOCK: usize = 4096;

/// Writes a digest to the front of the area, whose other bytes stay. Refuses an area that is too short.
pub fn write_digest(value: &[u8], area: &mut [u8]) -> Result<(), Refusal>
    ensures { Wrote value.now (length value.now) area.old area.new result }
{
    if area.len() < value.len() {
        return Err(Refusal::ShortArea);
    }
    area[..value.len()].copy_from_slice(value);
    Ok(())
}

/// Writes the digest of the bytes to the front of the area.
/// Refuses more than 16,777,216 bytes, and then an area that is too short; the area stays as it was.
pub fn digest_bytes<G: Digest>(bytes: &[u8], area: &mut [u8]) -> Result<(), Refusal>
    ensures { Digested G.value G.size bytes.now area.old area.new result }
{
    // Not `digest_pieces` of one piece, which would be no shorter and go through a loop.
    let mut state = G::start();
    state.take(bytes)?;
    state.finish(area)
}

/// Gives the pieces to the state in their order.
/// Refuses the first that would pass 16,777,216 bytes; those before it are taken.
fn take_pieces<G: Digest>(state: &mut G, pieces: &[&[u8]]) -> Result<(), Refusal>
    ensures { (xs : List ℕ) → G.stands state.old xs → length xs ≤ most → TookAll G.stands state.new (flat_map (λ p. p.now) pieces.now) xs result }
{
    for piece in pieces {
        state.take(piece)?;
    }
    Ok(())
}

/// Writes the digest of the pieces, joined in their order, to the front of the area.
/// Refuses as `digest_bytes` does of the joined bytes.
pub fn digest_pieces<G: Digest>(pieces: &[&[u8]], area: &mut [u8]) -> Result<(), Refusal>
    ensures { Digested G.value G.size (flat_map (λ p. p.now) pieces.now) area.old area.new result }
{
    let mut state = G::start();
    take_pieces(&mut state, pieces)?;
    state.finish(area)
}

/// Gives all bytes of a source to the state, block by block.
/// Refuses nothing where the state stands for no more bytes than a source may have.
fn take_source<G: Digest, S: Source>(state: &mut G, source: &S) -> Result<(), Refusal>
    ensures { (xs : List ℕ) → G.stands state.old xs → length xs ≤ 8388608 → (result ≡ Ok tt) × G.stands state.new (xs ++ S.bytes source.now) }
{
    let mut block = [0u8; BLOCK];
    for i in 0..source.len().div_ceil(BLOCK) {
        let count = source.read_at(BLOCK * i, &mut block);
        state.take(&block[..count])?;
    }
    Ok(())
}

/// Writes the digest of all bytes of a source to the front of the area.
/// Refuses only an area that is too short: no source has more bytes than a digest takes.
pub fn digest_source<G: Digest, S: Source>(source: &S, area: &mut [u8]) -> Result<(), Refusal>
    ensures { Wrote (G.value (S.bytes source.now)) G.size area.old area.new result }
{
    let mut state = G::start();
    take_source(&mut state, source)?;
    state.finish(area)
}
