ghost use Rattle.std.specs.Prelude.{◌≡◌, refl, ◌^◌, ◌<◌};
ghost use Rattle.bitmaps.specs.Bitmaps.{bitmaps_kind, bitmaps_form};
ghost use Rattle.bitmaps.specs.Forms.{bitmaps_laws};

use crate::maps::Bitmaps;
use readings::{Reading, mark};
use records::frame::{decode_records, encode_records};
use synopsis::fault::{DecodeFault, EncodeFault};
use synopsis::kind::Synopsis;

// A map in which one bit is set.
fn bit(rank: u32) -> u32
    requires { rank < 32 }
    ensures { result ≡ 2 ^ rank }
{
    1 << rank
}

impl Synopsis for Bitmaps {
    const NUMBER: u8 = 1;

    ghost NUMBER = { 1 };

    ghost kind = { bitmaps_kind };

    ghost form = { bitmaps_form };

    ghost numbered = { refl };

    ghost lawful = { bitmaps_laws };

    fn greatest_length() -> usize {
        260
    }

    fn empty() -> Self {
        Bitmaps { maps: [0; 64] }
    }

    fn make(reading: Reading) -> Self {
        let (bucket, rank) = mark(reading.hash());
        let mut maps = [0; 64];
        maps[bucket as usize] = bit(rank);
        Bitmaps { maps }
    }

    fn fuse(&mut self, other: &Self) {
        // By index: the proof needs it (docs/DECISIONS.md).
        for (i, theirs) in other.maps.iter().enumerate() {
            self.maps[i] |= *theirs;
        }
    }

    fn add(&mut self, reading: Reading) {
        let (bucket, rank) = mark(reading.hash());
        self.maps[bucket as usize] |= bit(rank);
    }

    fn length(&self) -> usize {
        Self::greatest_length()
    }

    fn encode(&self, out: &mut [u8]) -> Result<usize, EncodeFault> {
        encode_records(Self::NUMBER, &self.maps, out)
    }

    fn decode(&mut self, frame: &[u8]) -> Result<(), DecodeFault> {
        decode_records(Self::NUMBER, 64, frame, &mut self.maps)?;
        Ok(())
    }
}
