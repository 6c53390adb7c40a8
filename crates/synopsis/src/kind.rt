ghost use Rattle.std.specs.Prelude.{◌≡◌, ℕ, length};
ghost use Rattle.synopsis.specs.Kind.{Kind, Laws, overlong, frame_length, encode_answer, encode_after, Decoded};

use crate::fault::{DecodeFault, EncodeFault};
use readings::Reading;

/// How many bytes a frame has at most. A kind that may need more is overlong.
pub const LONGEST: usize = 2048;

/// What `length` and `greatest_length` answer for an overlong kind: one byte more than any frame has.
pub const OVERLONG: usize = LONGEST + 1;

/// A synopsis: a small mergeable summary of readings. Each type that implements the trait is a kind, and proves the laws of a
/// kind: the join is associative, commutative and idempotent with the empty form as unit, and encodings tell forms apart.
pub trait Synopsis: Sized + Drop {
    // what the kind means
    ghost kind: { Kind };

    /// the kind number, the first byte of each of its frames
    const NUMBER: u8;

    ghost NUMBER: { ℕ };

    // the form of a value
    ghost form: { Self → kind.Form };

    /// The kind number, as a call that contracts can speak of.
    final fn kind_number() -> u8
        ensures { result ≡ kind.number }
    {
        Self::NUMBER
    }

    /// The greatest length of an encoding, in bytes; 2,049 for an overlong kind.
    fn greatest_length() -> usize
        ensures { result ≡ kind.greatest };

    /// Whether the kind has forms too long for any frame.
    fn is_overlong() -> bool
        ensures { result ≡ overlong kind }
    {
        Self::greatest_length() > LONGEST
    }

    /// EMPTY: a value that has counted nothing.
    fn empty() -> Self
        ensures { form result ≡ kind.none };

    /// MAKE: a value that has counted one reading.
    fn make(reading: Reading) -> Self
        ensures { form result ≡ kind.single reading };

    /// FUSE: joins another value into this one.
    fn fuse(&mut self, other: &Self)
        ensures { form self.new ≡ kind.join (form self.old) (form other.now) };

    /// ADD: counts one more reading, as FUSE of what MAKE gives does.
    fn add(&mut self, reading: Reading)
        ensures { form self.new ≡ kind.join (form self.old) (kind.single reading) }
    {
        self.fuse(&Self::make(reading));
    }

    /// LENGTH: the length of the encoding, in bytes; 2,049 for an overlong kind.
    fn length(&self) -> usize
        ensures { result ≡ frame_length kind (form self.now) };

    /// ENCODE: writes the encoding at the front of `out`, and answers its length in bytes; the other bytes stay. It refuses with
    /// `Overlong` every value of an overlong kind, then with `Room` fewer bytes than the encoding has; then all bytes stay.
    fn encode(&self, out: &mut [u8]) -> Result<usize, EncodeFault>
        ensures answer { result ≡ encode_answer kind (form self.now) (length out.old) }
        ensures after { out.new ≡ encode_after kind (form self.now) out.old };

    /// DECODE: gives the value the form that the bytes encode. Bytes that are no encoding of the kind are refused, with a fault
    /// that depends on the bytes alone; then the value stays.
    fn decode(&mut self, frame: &[u8]) -> Result<(), DecodeFault>
        ensures { Decoded kind form frame.now self.old self.new result };

    ghost numbered: { NUMBER ≡ kind.number };

    ghost lawful: { Laws kind };
}
