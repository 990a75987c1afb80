// A word of 64 bits as two of 32.
ghost use Rattle.std.specs.Prelude.{◌≡◌, ◌+◌, ◌*◌, ◌/◌, ◌%◌, ◌^◌};

// The low half of a word and its high half.
#[derive(Clone, Copy, Debug, PartialEq, Eq)]
pub struct DoubleWord {
    pub low: u32,
    pub high: u32,
}

impl From<u64> for DoubleWord {
    ghost from_gives = { λ word r. r ≡ record { low = word % 2 ^ 32; high = word / 2 ^ 32 } };

    fn from(word: u64) -> DoubleWord {
        DoubleWord {
            low: (word % 0x1_0000_0000) as u32,
            high: (word / 0x1_0000_0000) as u32,
        }
    }
}

impl From<DoubleWord> for u64 {
    ghost from_gives = { λ pair r. r ≡ pair.low + pair.high * 2 ^ 32 };

    fn from(pair: DoubleWord) -> u64 {
        u64::from(pair.low) + u64::from(pair.high) * 0x1_0000_0000
    }
}
