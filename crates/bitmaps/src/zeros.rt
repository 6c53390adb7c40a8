ghost use Rattle.std.specs.Prelude.{◌≡◌, ◌≤◌, length};
ghost use Rattle.bitmaps.specs.Bitmaps.{lowest_zero, LowestZero, sum_of};

/// R: the position of the lowest zero bit of a map, 32 if there is none.
pub fn lowest_zero(map: u32) -> u32
    ensures value { result ≡ lowest_zero map }
    ensures lowest { LowestZero 32 map result }
{
    map.trailing_ones()
}

// S: the sum of R over the maps in turn.
pub(crate) fn sum_of_zeros(maps: &[u32]) -> u32
    requires { length maps.now ≤ 64 }
    ensures { result ≡ sum_of maps.now }
{
    let mut sum = 0;
    for map in maps {
        sum += lowest_zero(*map);
    }
    sum
}
