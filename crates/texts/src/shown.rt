// Bytes as capital hex pairs.
ghost use Rattle.std.specs.Prelude.{◌≡◌, ◌<◌, Some, slice_index};
ghost use Rattle.hex.specs.Hex.{upper_digits, encode_upper};

use std::fmt;

// A digit of capital hex.
fn digit(n: u8) -> char
    requires { n < 16 }
    ensures digit { result ≡ slice_index upper_digits n }
    ensures ascii { result < 128 }
{
    char::from(b"0123456789ABCDEF"[usize::from(n)])
}

/// Bytes that print themselves as capital hex pairs, two digits a byte; no bytes print nothing.
#[derive(Clone, Copy)]
pub struct Pairs<'a>(pub &'a [u8]);

impl fmt::Display for Pairs<'_> {
    ghost output = { λ p. Some (encode_upper p.0.now) };

    #[tactic(auto, using(crate::proofs::Digits::encode_none))]
    fn fmt<W: fmt::Write>(&self, f: &mut fmt::Formatter<W>) -> fmt::Result {
        for byte in self.0 {
            let (high, low) = (digit(*byte / 16), digit(*byte % 16));
            write!(f, "{high}{low}")?;
        }
        Ok(())
    }
}
