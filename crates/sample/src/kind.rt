ghost use Rattle.std.specs.Prelude.{refl};
ghost use Rattle.sample.specs.Sample.{sample_kind, sample_form};
ghost use Rattle.sample.specs.Forms.{sample_laws};

use crate::record::SampleRecord;
use crate::row::Sample;
use readings::Reading;
use records::frame::{decode_row, encode_row, row_length};
use runs::row::Row;
use synopsis::fault::{DecodeFault, EncodeFault};
use synopsis::kind::Synopsis;

impl Synopsis for Sample {
    const NUMBER: u8 = 3;

    ghost NUMBER = { 3 };

    ghost kind = { sample_kind };

    ghost form = { sample_form };

    ghost numbered = { refl };

    ghost lawful = { sample_laws };

    fn greatest_length() -> usize {
        644
    }

    fn empty() -> Self {
        Sample { row: Row::empty() }
    }

    fn make(reading: Reading) -> Self {
        Sample {
            row: Row::single(SampleRecord::from(reading)),
        }
    }

    fn fuse(&mut self, other: &Self) {
        self.row.join(&other.row, [0; 32], [0; 32]);
    }

    fn add(&mut self, reading: Reading) {
        self.row.add(SampleRecord::from(reading));
    }

    fn length(&self) -> usize {
        row_length(&self.row)
    }

    fn encode(&self, out: &mut [u8]) -> Result<usize, EncodeFault> {
        encode_row(Self::NUMBER, &self.row, out)
    }

    fn decode(&mut self, frame: &[u8]) -> Result<(), DecodeFault> {
        decode_row(Self::NUMBER, frame, &mut self.row)
    }
}
