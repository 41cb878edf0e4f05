//! What the definitions of SHA3-256 say of themselves: theorems, in the contracts of functions that do nothing.
ghost use Rattle.sha3.specs.Examples.{Abc, AlmostBlock, Empty, OneBlock};
ghost use Rattle.sha3.specs.Pad.{Bitwise, Whole};
ghost use Rattle.sha3.specs.Tables.{Tables};

/// The offsets and the round constants are those of the standard's algorithms.
pub fn tables_stand() -> u8
    ensures { Tables }
{
    0
}

/// The padding in bytes is the standard's padding in bits, and fills the last block.
pub fn padding_stands() -> u8
    ensures bits { Bitwise }
    ensures whole { Whole }
{
    0
}

/// Digests that the definition computes.
pub fn examples_stand() -> u8
    ensures empty { Empty }
    ensures abc { Abc }
    ensures almost { AlmostBlock }
    ensures block { OneBlock }
{
    0
}
