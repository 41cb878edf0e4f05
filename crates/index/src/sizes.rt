//! How many bytes an index takes up.
ghost use Rattle.std.specs.Prelude.{◌≡◌, ℕ, ◌+◌, ◌*◌, ◌≤◌, List, length};
ghost use Rattle.std.specs.Str.{bytes_eq};
ghost use Rattle.stamp_model.specs.declared.lists.ListName.{ListName};
ghost use Rattle.stamp_model.specs.declared.lists.ListName.TheVariants.{Certificates, Revocations, Attributes};
ghost use Rattle.stamp_model.specs.Algorithms.{sha256_name};
ghost use Rattle.stamp_model.specs.Indexes.{index_bytes, index_of};
ghost use Rattle.index.specs.Sizes.{framed_size_of, list_size_of, algorithm_size_of, contents_size_of, index_size};

use der::header_size;
use digest::interface::Digest;

/// The contents of SHA-256's identifier.
static SHA256: [u8; 9] = [0x60, 0x86, 0x48, 0x01, 0x65, 0x03, 0x04, 0x02, 0x01];

/// Whether an index that names this digest leaves its name out.
pub(crate) fn is_left_out(name: &[u8]) -> bool
    ensures { result ≡ bytes_eq name.now sha256_name }
{
    name == SHA256.as_slice()
}

/// An element with so many bytes of contents.
pub(crate) fn framed_size(size: usize) -> usize
    requires { size ≤ 65535 }
    ensures value { result ≡ framed_size_of size }
    ensures few { result ≤ size + 4 }
{
    header_size(size) + size
}

/// So many entries.
pub(crate) fn entries_size<G: Digest>(count: usize) -> usize
    requires { count ≤ 64 }
    ensures value { result ≡ count * framed_size_of G.size }
    ensures few { result ≤ 4352 }
{
    count * framed_size(G::width())
}

/// A list of so many entries.
fn list_size<G: Digest>(count: usize) -> usize
    requires { count ≤ 64 }
    ensures value { result ≡ list_size_of G.size count }
    ensures few { result ≤ 4356 }
{
    framed_size(entries_size::<G>(count))
}

/// The algorithm for a digest of this name.
fn algorithm_size(name: &[u8]) -> usize
    requires { length name.now ≤ 16 }
    ensures value { result ≡ algorithm_size_of name.now }
    ensures few { result ≤ 24 }
{
    if is_left_out(name) {
        return 0;
    }
    framed_size(framed_size(name.len()))
}

/// The algorithm and the three lists.
pub(crate) fn contents_size<G: Digest>(
    certificates: usize,
    revocations: usize,
    attributes: usize,
) -> usize
    requires { (certificates ≤ 64) × ((revocations ≤ 64) × (attributes ≤ 64)) }
    ensures value { result ≡ contents_size_of G.size G.oid certificates revocations attributes }
    ensures few { result ≤ 13092 }
{
    let lists = list_size::<G>(certificates)
        + (list_size::<G>(revocations) + list_size::<G>(attributes));
    algorithm_size(G::identifier()) + lists
}

/// How many bytes the index has of so many elements in each list.
pub fn index_length<G: Digest>(certificates: usize, revocations: usize, attributes: usize) -> usize
    requires { (certificates ≤ 64) × ((revocations ≤ 64) × (attributes ≤ 64)) }
    ensures computed { result ≡ index_size G.size G.oid certificates revocations attributes }
    ensures meaning { (elements : ListName → List (List ℕ))
        → length (elements Certificates) ≡ certificates → length (elements Revocations) ≡ revocations → length (elements Attributes) ≡ attributes
        → result ≡ length (index_bytes (index_of G.value G.oid elements)) }
{
    framed_size(contents_size::<G>(certificates, revocations, attributes))
}
