//! The standard's worked example.
ghost use Rattle.std.specs.Prelude.{◌≡◌, codes};
ghost use Rattle.sha256.specs.Example.{abc_digest};
ghost use Rattle.sha256.specs.Sha.{sha256 as Sha};

/// The definition computes the standard's digest.
fn example_holds()
    ensures { abc_digest ≡ Sha (codes "abc") }
{}

/// The digest of the three letters "abc", which the standard's examples print.
pub fn digest_of_abc() -> [u8; 32]
    ensures printed { result ≡ abc_digest }
    ensures computed { result ≡ Sha (codes "abc") }
{
    example_holds();
    *b"\xba\x78\x16\xbf\x8f\x01\xcf\xea\x41\x41\x40\xde\x5d\xae\x22\x23\xb0\x03\x61\xa3\x96\x17\x7a\x9c\xb4\x10\xff\x61\xf2\x00\x15\xad"
}
