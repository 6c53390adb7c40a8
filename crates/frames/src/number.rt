ghost use Rattle.std.specs.Prelude.{◌≡◌, ◌%◌, ◌^◌, ◌<◌, length};
ghost use Rattle.std.specs.List.{AllByRecursion};
ghost use Rattle.frames.specs.Numbers.{low_bytes, from_bytes};

/// The number that bytes write, highest first, modulo 2^64.
#[tactic(auto, using(crate::proofs::Numbers::all_small))]
pub fn get_number(bytes: &[u8]) -> u64
    ensures value { result ≡ from_bytes bytes.now % 2 ^ 64 }
    ensures small { AllByRecursion (λ b. b < 256) bytes.now }
{
    // Whole words at once.
    if let Ok(word) = <[u8; 8]>::try_from(bytes) {
        return u64::from_be_bytes(word);
    }
    if let Ok(word) = <[u8; 4]>::try_from(bytes) {
        return u64::from(u32::from_be_bytes(word));
    }
    let mut n: u64 = 0;
    for b in bytes {
        n = n.wrapping_mul(256).wrapping_add(u64::from(*b));
    }
    n
}

/// Fills `out` with the lowest bytes of a number, highest first: as many bytes as `out` has.
pub fn put_number(out: &mut [u8], n: u64)
    ensures { out.new ≡ low_bytes (length out.old) n }
{
    // Whole words at once.
    if out.len() == 8 {
        out.copy_from_slice(&n.to_be_bytes());
        return;
    }
    if out.len() == 4 {
        out.copy_from_slice(&((n % (1 << 32)) as u32).to_be_bytes());
        return;
    }
    let mut rest = n;
    // By index: the proof needs it (docs/DECISIONS.md).
    for i in (0..out.len()).rev() {
        out[i] = (rest % 256) as u8;
        rest /= 256;
    }
}
