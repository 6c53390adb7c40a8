ghost use Rattle.std.specs.Prelude.{◌<◌};
ghost use Rattle.bitmaps.specs.Bitmaps.{EighthRoot};

// t: the greatest whole number whose eighth power is at most 2^(j + 48).
pub(crate) fn eighth_root(j: u32) -> u64
    requires { j < 8 }
    ensures { EighthRoot j result }
{
    let most: u64 = 1 << (j + 48);
    // A search up from 64, the root for j = 0.
    let mut t: u64 = 64;
    while (t + 1).pow(8) <= most {
        t += 1;
    }
    t
}
