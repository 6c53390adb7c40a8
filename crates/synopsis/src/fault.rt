ghost use Rattle.std.specs.Prelude.{◌≡◌, Some};
ghost use Rattle.synopsis.specs.Faults.{reason_number, encode_number, fault, fault_text, encode_text};

use std::error::Error;
use std::fmt;

/// Why bytes are refused as a frame.
#[derive(Clone, Copy, PartialEq, Eq, Debug)]
pub enum Reason {
    /// the kind has forms too long for any frame
    Overlong = 3,
    /// fewer bytes than a header has
    Short = 9,
    /// the number of another kind
    OtherKind = 10,
    /// a count that the kind does not have
    Count = 11,
    /// an end that disagrees with the bytes or with the count
    End = 12,
    /// a record that is not greater than its predecessor
    Order = 13,
    /// no place for a second side
    Offset = 14,
}

impl Reason {
    /// The number of the refusal: 3, or 9 to 14.
    pub fn number(self) -> u8
        ensures { result ≡ reason_number self }
    {
        self as u8
    }
}

/// What is wrong with bytes that are no frame. It prints its number, place and kind.
#[derive(Clone, Copy, PartialEq, Eq, Debug)]
pub struct DecodeFault {
    /// why the bytes are refused
    pub reason: Reason,
    /// the byte at which that shows, at most the number of bytes
    pub place: usize,
    /// the number of the kind that refused them; in a pair that may be a side's
    pub kind: u8,
}

impl DecodeFault {
    /// The fault of bytes that the kind of this number refuses, for a reason that shows at this place.
    pub fn new(reason: Reason, place: usize, kind: u8) -> DecodeFault
        ensures { result ≡ fault reason place kind }
    {
        DecodeFault {
            reason,
            place,
            kind,
        }
    }
}

impl fmt::Display for DecodeFault {
    ghost output = { λ e. Some (fault_text e) };

    fn fmt<W: fmt::Write>(&self, f: &mut fmt::Formatter<W>) -> fmt::Result {
        write!(
            f,
            "number {}, at byte {}, in kind {}",
            self.reason.number(),
            self.place,
            self.kind
        )
    }
}

impl Error for DecodeFault {}

/// Why no frame is written. It prints its number.
#[derive(Clone, Copy, PartialEq, Eq, Debug)]
pub enum EncodeFault {
    /// the kind has forms too long for any frame
    Overlong = 3,
    /// fewer bytes than the encoding has
    Room = 8,
}

impl EncodeFault {
    /// The number of the refusal: 3 or 8.
    pub fn number(self) -> u8
        ensures { result ≡ encode_number self }
    {
        self as u8
    }
}

impl fmt::Display for EncodeFault {
    ghost output = { λ e. Some (encode_text e) };

    fn fmt<W: fmt::Write>(&self, f: &mut fmt::Formatter<W>) -> fmt::Result {
        write!(f, "number {}", self.number())
    }
}

impl Error for EncodeFault {}
