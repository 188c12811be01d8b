// CRC-32, the 32-bit frame check sequence of ITU-T V.42: of a message, and carried on from part to part.
#![tactic(auto)]

mod slicing;
mod tables;
#[cfg(test)]
mod tests;

ghost use Rattle.std.specs.Prelude.{◌≡◌, ℕ, true, List, ◌∷◌, ◌++◌};
ghost use Rattle.checksum.specs.Crc.{generator, crc32, continued};
ghost use Rattle.checksum.specs.Division.{value, LeavesRemainder, LeavesNoOther};

use slicing::Slicer;

// The checksum of `bytes` alone.
pub fn checksum(bytes: &[u8]) -> u32
    ensures { result ≡ crc32 bytes.now }
{
    update(0, bytes)
}

// The checksum `crc` of what came before, carried on over `bytes`.
pub fn update(crc: u32, bytes: &[u8]) -> u32
    ensures value { result ≡ continued crc bytes.now }
    ensures joined { (xs : List ℕ) → crc ≡ crc32 xs → result ≡ crc32 (xs ++ bytes.now) }
{
    let slicer = Slicer::new();
    let mut register = !crc;
    let (words, rest) = bytes.as_chunks::<8>();
    for word in words {
        register = slicer.eight(register, word);
    }
    for b in rest {
        register = slicer.octet(register, *b);
    }
    !register
}

// The generator polynomial, the coefficient of x^i in bit i. Division by it leaves the definition's remainders, and no others.
pub fn divisor() -> u64
    ensures value { result ≡ value (true ∷ generator) }
    ensures leaves { LeavesRemainder result }
    ensures only { LeavesNoOther result }
{
    0x1_04C1_1DB7
}
