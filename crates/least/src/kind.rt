ghost use Rattle.std.specs.Prelude.{◌≡◌, refl};
ghost use Rattle.least.specs.Least.{least_kind, least_form, estimate_of};
ghost use Rattle.least.specs.Forms.{least_laws};

use crate::row::LeastValues;
use readings::Reading;
use records::frame::{decode_row, encode_row, row_length};
use runs::row::Row;
use synopsis::fault::{DecodeFault, EncodeFault};
use synopsis::kind::Synopsis;

/// How many bytes a frame of least values has at most.
pub const GREATEST: usize = 516;

impl LeastValues {
    /// An estimate of how many different hashes were seen: their number while it is below 64, and then
    /// 63 * 2^32 / (u + 1), rounded down, where u are the upper 32 bits of the last value.
    pub fn estimate(&self) -> u64
        ensures { result ≡ estimate_of (least_form self.now).items }
    {
        let values = self.row.items();
        if values.len() < 64 {
            return values.len() as u64;
        }
        (63 << 32) / ((values[63] >> 32) + 1)
    }
}

impl Synopsis for LeastValues {
    const NUMBER: u8 = 2;

    ghost NUMBER = { 2 };

    ghost kind = { least_kind };

    ghost form = { least_form };

    ghost numbered = { refl };

    ghost lawful = { least_laws };

    fn greatest_length() -> usize {
        GREATEST
    }

    fn empty() -> Self {
        LeastValues { row: Row::empty() }
    }

    fn make(reading: Reading) -> Self {
        LeastValues {
            row: Row::single(reading.hash()),
        }
    }

    fn fuse(&mut self, other: &Self) {
        self.row.join(&other.row, [0; 64], [0; 64]);
    }

    fn add(&mut self, reading: Reading) {
        self.row.add(reading.hash());
    }

    fn length(&self) -> usize {
        row_length(&self.row)
    }

    fn encode(&self, out: &mut [u8]) -> Result<usize, EncodeFault> {
        encode_row(Self::NUMBER, &self.row, out)
    }

    fn decode(&mut self, frame: &[u8]) -> Result<(), DecodeFault> {
        decode_row(Self::NUMBER, frame, &mut self.row)
    }
}
