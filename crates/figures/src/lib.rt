// The proved table of worked numbers.
#![tactic(auto)]

ghost use Rattle.std.specs.Prelude.{◌≡◌, [], ◌∷◌};
ghost use Rattle.figures.specs.Example.{Example};
ghost use Rattle.figures.specs.Figures.{Figures};
ghost use Rattle.figures.specs.Scripts.{WorkedScript};

use bitmaps::zeros::lowest_zero;
use readings::{mark, mix};
use runs::keyed::Keyed;
use runs::union::union;
use usage::pile::greatest_lengths;

/// Some of the table's numbers, as the calls give them.
#[derive(Clone, Copy)]
pub struct Computed {
    /// the hash of item 0
    pub hash_of_0: u64,
    /// the mark of that hash
    pub mark_of_that: (u32, u32),
    /// the mark of hash 0
    pub mark_of_0: (u32, u32),
    /// the 2-union of 1, 3 and 2, 3
    pub two_least: [u64; 2],
    /// the lowest zero bits of 0, 7 and 2^32 - 1
    pub lowest_zeros: [u32; 3],
    /// the greatest lengths of the standard pile and of four samples
    pub lengths: (usize, usize),
}

/// The calls give the table's numbers, and the definitions give all of them, the answers of the worked turns, and the output of
/// the worked script.
pub fn figures() -> Computed
    ensures calls { result ≡ record { hash_of_0 = 0xE220A8397B1DCDAF; mark_of_that = (47, 1); mark_of_0 = (0, 31); two_least = 1 ∷ 2 ∷ []; lowest_zeros = 0 ∷ 3 ∷ 32 ∷ []; lengths = (1432, 2049) } }
    ensures definitions { Figures }
    ensures example { Example }
    ensures script { WorkedScript }
{
    let mut two_least = [0; 2];
    // Hash values are their own keys.
    let one = Keyed {
        items: &[1, 3],
        keys: &[1, 3],
    };
    let other = Keyed {
        items: &[2, 3],
        keys: &[2, 3],
    };
    let _ = union(&one, &other, &mut two_least);
    let hash_of_0 = mix(0);
    Computed {
        hash_of_0,
        mark_of_that: mark(hash_of_0),
        mark_of_0: mark(0),
        two_least,
        lowest_zeros: [lowest_zero(0), lowest_zero(7), lowest_zero(u32::MAX)],
        lengths: greatest_lengths(),
    }
}
