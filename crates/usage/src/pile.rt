// Piles: pairs over the three kinds.
ghost use Rattle.std.specs.Prelude.{◌≡◌};

use bitmaps::maps::Bitmaps;
use layers::pair::Pair;
use least::row::LeastValues;
use sample::row::Sample;
use synopsis::kind::Synopsis;

/// The standard pile, which the hosts of a rack pass to each other: bitmaps, least values and a sample, in a frame of 1,432 bytes
/// at most.
pub type StandardPile = Pair<Bitmaps, Pair<LeastValues, Sample>>;

/// Four samples in three pairs: an overlong pile, which every network refuses.
pub type FourSamples = Pair<Pair<Sample, Sample>, Pair<Sample, Sample>>;

/// The greatest lengths of the two, in bytes: 1,432, and 2,049 for the overlong one.
pub fn greatest_lengths() -> (usize, usize)
    ensures { result ≡ (1432, 2049) }
{
    (
        StandardPile::greatest_length(),
        FourSamples::greatest_length(),
    )
}
