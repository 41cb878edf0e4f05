//! Stamps as a whole.
ghost use Rattle.std.specs.Result.{MatchResult};
ghost use Rattle.stamp.specs.Stamped.{StampAt, NoStamp, BareAt, NotBare};

use crate::carried::read_carried;
use crate::indexes::read_index_bytes;
use crate::parts::{StampFault, StampParts};
use der::{Element, Reader};
use token::{TokenParts, read_token};

/// How many of a file's levels are left for a token, which stands on level 9.
const TOKEN_LEVELS: u8 = 24;

/// How many are left for its index, which stands on level 17.
const INDEX_LEVELS: u8 = 16;

/// Where the parts lie of the stamp that the bytes of a token are; or what is at fault.
pub fn read_stamp(token: &[u8]) -> Result<StampParts, StampFault>
    ensures { MatchResult result (StampAt token.now) (NoStamp token.now) }
{
    let parts = read_token(token, TOKEN_LEVELS)?;
    // What is behind the six fields is no field of its own.
    let behind = Reader {
        bytes: token,
        at: parts.signer.signature.end,
        end: parts.signer.whole.end,
    };
    let span = read_carried(behind).map_err(StampFault::Carried)?;
    let index = Element { bytes: token, span };
    let entries = read_index_bytes(index.whole(), INDEX_LEVELS).map_err(
        |fault| StampFault::Index {
            at: span.start,
            fault,
        },
    )?;
    Ok(StampParts {
        token: parts,
        index: span,
        entries,
    })
}

/// Where the parts lie of a token without unsigned attributes, which a stamp can be made of; or what is at fault.
pub fn read_bare_token(token: &[u8]) -> Result<TokenParts, StampFault>
    ensures { MatchResult result (BareAt token.now) (NotBare token.now) }
{
    let parts = read_token(token, TOKEN_LEVELS)?;
    match parts.signer.unsigned {
        Some(unsigned) => Err(StampFault::Carried(unsigned.field.start)),
        None => Ok(parts),
    }
}
