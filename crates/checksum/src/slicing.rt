// Octets into the register of the division by tables, one at a time and eight at a time.
ghost use Rattle.std.specs.Prelude.{◌≡◌, ◌+◌, ◌*◌, ◌%◌, ◌<◌, ◌≤◌, bit_xor};
ghost use Rattle.checksum.specs.Register.{turns, absorb};
ghost use Rattle.checksum.specs.Tables.{turned};

use super::tables::TABLES;

// The eight tables of the register's turns.
#[derive(Clone, Copy)]
pub(crate) struct Slicer {
    tables: &'static [[u32; 256]; 8],
    ghost are_turned: { tables.now ≡ turned },
}

impl Slicer {
    pub(crate) fn new() -> Slicer {
        Slicer { tables: &TABLES }
    }

    // What `8 (k + 1)` turns make of the octet `b`.
    fn entry(self, k: usize, b: u8) -> u32
        requires { k < 8 }
        ensures { result ≡ turns (8 * (k + 1)) b }
    {
        self.tables[k][usize::from(b)]
    }

    // The octet `b`, by the first table.
    #[tactic(auto, using(crate::proofs::Octets::octet_is))]
    pub(crate) fn octet(self, register: u32, b: u8) -> u32
        ensures { result ≡ turns 8 (bit_xor register (b % 256)) }
    {
        let [low, _, _, _] = register.to_le_bytes();
        self.entry(0, low ^ b) ^ (register >> 8)
    }

    // Four octets as the word `a`, with `later` more to follow them.
    #[tactic(auto, using(crate::proofs::Sliced::word_is))]
    fn word(self, later: usize, a: u32) -> u32
        requires { later ≤ 4 }
        ensures { result ≡ turns (8 * (later + 4)) a }
    {
        let [b0, b1, b2, b3] = a.to_le_bytes();
        self.entry(later + 3, b0)
            ^ self.entry(later + 2, b1)
            ^ self.entry(later + 1, b2)
            ^ self.entry(later, b3)
    }

    // Eight octets at once.
    #[tactic(auto, using(crate::proofs::Sliced::eight_is))]
    pub(crate) fn eight(self, register: u32, octets: &[u8; 8]) -> u32
        ensures { result ≡ absorb register octets.now }
    {
        let [a, b, c, d, e, f, g, h] = *octets;
        let first = u32::from_le_bytes([a, b, c, d]);
        let second = u32::from_le_bytes([e, f, g, h]);
        self.word(4, register ^ first) ^ self.word(0, second)
    }
}
