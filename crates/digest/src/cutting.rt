//! Parts of slices, copied into a block.
ghost use Rattle.digest.specs.Read.{Read};

/// The bytes from `place` on go to the front of the block, as many as both allow. Answers how many; the rest of the
/// block stays.
pub fn copy_part(bytes: &[u8], place: usize, block: &mut [u8]) -> usize
    ensures { Read bytes.now place block.old block.new result }
{
    if place >= bytes.len() {
        return 0;
    }
    let count = block.len().min(bytes.len() - place);
    block[..count].copy_from_slice(&bytes[place..place + count]);
    count
}
