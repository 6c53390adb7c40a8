/// Bitmaps: 64 maps of 32 bits, one for each bucket (Flajolet and Martin 1985). Bit r of a map is set where a reading had that
/// bucket and rank r.
#[derive(Clone, Copy, PartialEq, Eq, Debug)]
pub struct Bitmaps {
    /// the maps, bucket 0 first
    pub maps: [u32; 64],
}
