//! Digests, made and compared.
ghost use Rattle.std.specs.Prelude.{◌≡◌, ℕ, ◌*◌, ◌≤◌, List, map, length};
ghost use Rattle.der.specs.Trees.{Tree, encode};
ghost use Rattle.index.specs.Puts.{Put};
ghost use Rattle.index.specs.Standing.{Stand};
ghost use Rattle.matching.specs.Lists.{digests_bytes, digests_in, holds as Holds};

use super::Digests;
use digest::interface::Digest;
use index::{Elements, put_digest};

/// Puts the digest of each element, one behind another from the area's front on.
fn put_digests<G: Digest>(elements: Elements, area: &mut [u8]) -> usize
    requires { elements.count * G.size ≤ length area.old }
    ensures { (ts : List Tree) → Stand elements.entry ts → Put area.old area.new 0 (digests_bytes G.value ts) result }
{
    let mut stop = 0;
    // As entries are put in `index`: one function for both would take the writing as a closure over the area.
    for element in elements {
        stop = put_digest::<G>(area, stop, element.whole());
    }
    stop
}

impl Digests {
    /// The digests of the elements that stand there, at most 64.
    pub fn of<G: Digest>(elements: Elements) -> Digests
        requires { elements.count ≤ 64 }
        ensures { (ts : List Tree) → Stand elements.entry ts → digests_in result ≡ map G.value (map encode ts) }
    {
        let mut bytes = [0u8; 4096];
        put_digests::<G>(elements, &mut bytes);
        Digests {
            bytes,
            size: G::width(),
            count: elements.count,
        }
    }

    /// Whether one of them is these bytes.
    pub fn holds(&self, wanted: &[u8]) -> bool
        ensures { result ≡ Holds (digests_in self.now) wanted.now }
    {
        self.bytes[..self.count * self.size]
            .chunks_exact(self.size)
            .any(|digest| digest == wanted)
    }
}
