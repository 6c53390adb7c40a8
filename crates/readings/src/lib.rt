// What a host counts: readings, their hash, and the mark of a hash.
#![tactic(auto)]

ghost use Rattle.std.specs.Prelude.{◌≡◌};
ghost use Rattle.readings.specs.Readings.{mixed, output_of, hash_of, mark_of};

/// One client seen at work.
#[derive(Clone, Copy, PartialEq, Eq, Debug)]
pub struct Reading {
    /// whose client it is
    pub tenant: u32,
    /// which client
    pub item: u64,
    /// how much it used, in the unit of whoever counts
    pub amount: u64,
}

impl Reading {
    /// The hash by which every kind of synopsis counts this reading: that of its item alone.
    pub fn hash(self) -> u64
        ensures { result ≡ hash_of self }
    {
        mix(self.item)
    }
}

// What the SplitMix64 generator adds to its state before each output.
const STEP: u64 = 0x9E37_79B9_7F4A_7C15;

/// SplitMix64's output step (Steele, Lea and Flood 2014): spreads the bits of a number over all 64.
pub fn mix(item: u64) -> u64
    ensures { result ≡ mixed item }
{
    let mut z = item.wrapping_add(STEP);
    z = (z ^ (z >> 30)).wrapping_mul(0xBF58476D1CE4E5B9);
    z = (z ^ (z >> 27)).wrapping_mul(0x94D049BB133111EB);
    z ^ (z >> 31)
}

/// Output `i`, counted from zero, of the SplitMix64 generator with this seed.
pub fn output(seed: u64, i: u64) -> u64
    ensures { result ≡ output_of seed i }
{
    mix(seed.wrapping_add(i.wrapping_mul(STEP)))
}

/// The mark of a hash: its bucket, from 0 to 63, and its rank, from 0 to 31.
pub fn mark(hash: u64) -> (u32, u32)
    ensures { result ≡ mark_of hash }
{
    let quotient = hash / 64;
    let count = quotient.trailing_zeros();
    let rank = if quotient == 0 || count > 31 {
        31
    } else {
        count
    };
    ((hash % 64) as u32, rank)
}
