ghost use Rattle.std.specs.Prelude.{◌≡◌, ℕ, ◌*◌, ◌/◌, ◌^◌, ◌<◌, ◌≤◌};
ghost use Rattle.bitmaps.specs.Bitmaps.{bitmaps_form, sum_of, none_set, estimate_of, eighth_root, EighthRoot};

use crate::maps::Bitmaps;
use crate::root::eighth_root;
use crate::zeros::sum_of_zeros;

// Whether no bit is set.
fn is_blank(maps: &[u32]) -> bool
    ensures { result ≡ none_set maps.now }
{
    maps.iter().all(|map| *map == 0)
}

// t * 2^w * 100000 div 77351: the whole product, and then the one division.
fn scale(t: u64, w: u32) -> u64
    requires { (t < 128) × (w ≤ 32) }
    ensures { result ≡ t * 2 ^ w * 100000 / 77351 }
{
    t * (1 << w) * 100000 / 77351
}

impl Bitmaps {
    /// S: the sum of R, the position of the lowest zero bit, over the maps; 2,048 at most.
    pub fn sum(&self) -> u32
        ensures { result ≡ sum_of (bitmaps_form self.now).each }
    {
        sum_of_zeros(&self.maps)
    }

    /// An estimate of how many different hashes were seen; 0 where no bit is set. The formula is meant for many: one hash
    /// is estimated as 82.
    pub fn estimate(&self) -> u64
        ensures value { result ≡ estimate_of (bitmaps_form self.now).each }
        ensures roots { (j : ℕ) → j < 8 → EighthRoot j (eighth_root j) }
    {
        if is_blank(&self.maps) {
            return 0;
        }
        let q = self.sum() / 8;
        scale(eighth_root(q % 8), q / 8)
    }
}
