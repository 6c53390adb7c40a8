ghost use Rattle.std.specs.Prelude.{◌≡◌, ◌+◌, ◌≤◌, false, refl, length, IfOk, Ok, Err, MatchResult};
ghost use Rattle.std.specs.List.{between};
ghost use Rattle.synopsis.specs.Kind.{overlong, over};
ghost use Rattle.layers.specs.Parts.{read_part};
ghost use Rattle.layers.specs.Pairs.{pair_kind, pair_bytes, pair_head, second_offset};
ghost use Rattle.layers.specs.PairsLemmas.{pair_laws};

use frames::header::{Header, header_bytes, read_header};
use readings::Reading;
use synopsis::fault::{DecodeFault, EncodeFault, Reason};
use synopsis::kind::{LONGEST, OVERLONG, Synopsis};

// Also the trait's constant below, of which a proof over any two kinds knows nothing.
const NUMBER: u8 = 5;

// Where the first side begins: after the header and the offset of the second side.
const FIRST: usize = 6;

/// Two synopses of any kinds, side by side: itself a kind. A reading counts in both; each side joins by itself.
#[derive(Clone, PartialEq, Eq, Debug, Drop)]
pub struct Pair<A, B> {
    /// the side whose frame comes first
    pub first: A,
    /// the side whose frame comes second
    pub second: B,
}

// The offset of the second side in a frame of a pair.
fn second_offset(frame: &[u8]) -> Result<usize, DecodeFault>
    ensures value { result ≡ second_offset frame.now }
    ensures within { IfOk result (λ at. (10 ≤ at) × (at + 4 ≤ length frame.now)) }
{
    let header = read_header(frame, NUMBER, 2, 2)?;
    if usize::from(header.end) != frame.len() {
        return Err(DecodeFault::new(Reason::End, 2, NUMBER));
    }
    let misplaced = DecodeFault::new(Reason::Offset, 4, NUMBER);
    let &[_, _, _, _, high, low, ..] = frame else {
        return Err(misplaced);
    };
    let offset = usize::from(u16::from_be_bytes([high, low]));
    if offset < FIRST + 4 || offset > frame.len() - 4 {
        return Err(misplaced);
    }
    Ok(offset)
}

// Gives a side the form that a part of a frame encodes. On a fault the side stays, and the place counts from the start of the
// frame.
fn decode_part<S: Synopsis>(
    side: &mut S,
    frame: &[u8],
    from: usize,
    to: usize,
) -> Result<(), DecodeFault>
    requires { (from ≤ to) × (to ≤ length frame.now) }
    ensures { MatchResult result (λ _. (read_part S.Synopsis.kind from to frame.now ≡ Ok (S.Synopsis.form side.new)) × (S.Synopsis.kind.encoding (S.Synopsis.form side.new) ≡ between from to frame.now)) (λ e. (read_part S.Synopsis.kind from to frame.now ≡ Err e) × (side.new ≡ side.old)) }
{
    side.decode(&frame[from..to]).map_err(|fault| DecodeFault {
        place: from + fault.place,
        ..fault
    })
}

// What stands before the first side: the header, and the offset of the second side.
fn head_bytes(offset: u16, end: u16) -> [u8; 6]
    ensures { result ≡ pair_head offset end }
{
    let [kind, count, end_high, end_low] = header_bytes(NUMBER, Header { count: 2, end });
    let [high, low] = offset.to_be_bytes();
    [kind, count, end_high, end_low, high, low]
}

// Writes the frame of two sides at the front of `out`, which has room for the longest one, and answers its length in bytes. The
// head comes last, since it says how long the sides are.
fn encode_sides<A: Synopsis, B: Synopsis>(
    first: &A,
    second: &B,
    out: &mut [u8],
) -> Result<usize, EncodeFault>
    requires { (overlong (pair_kind A.Synopsis.kind B.Synopsis.kind) ≡ false) × ((pair_kind A.Synopsis.kind B.Synopsis.kind).greatest ≤ length out.old) }
    ensures answer { result ≡ Ok (length (pair_bytes (A.Synopsis.kind.encoding (A.Synopsis.form first.now)) (B.Synopsis.kind.encoding (B.Synopsis.form second.now)))) }
    ensures after { out.new ≡ over (pair_bytes (A.Synopsis.kind.encoding (A.Synopsis.form first.now)) (B.Synopsis.kind.encoding (B.Synopsis.form second.now))) out.old }
{
    let offset = FIRST + first.encode(&mut out[FIRST..])?;
    let end = offset + second.encode(&mut out[offset..])?;
    out[0..FIRST].copy_from_slice(&head_bytes(offset as u16, end as u16));
    Ok(end)
}

impl<A: Synopsis, B: Synopsis> Synopsis for Pair<A, B> {
    const NUMBER: u8 = NUMBER;

    ghost NUMBER = { 5 };

    ghost kind = { pair_kind A.Synopsis.kind B.Synopsis.kind };

    ghost form = { λ p. (A.Synopsis.form p.first, B.Synopsis.form p.second) };

    ghost numbered = { refl };

    ghost lawful = { pair_laws A.Synopsis.kind B.Synopsis.kind A.Synopsis.lawful B.Synopsis.lawful };

    fn greatest_length() -> usize {
        (FIRST + A::greatest_length() + B::greatest_length()).min(OVERLONG)
    }

    fn empty() -> Self {
        Pair {
            first: A::empty(),
            second: B::empty(),
        }
    }

    fn make(reading: Reading) -> Self {
        Pair {
            first: A::make(reading),
            second: B::make(reading),
        }
    }

    fn fuse(&mut self, other: &Self) {
        self.first.fuse(&other.first);
        self.second.fuse(&other.second);
    }

    fn add(&mut self, reading: Reading) {
        self.first.add(reading);
        self.second.add(reading);
    }

    fn length(&self) -> usize {
        if Self::is_overlong() {
            return OVERLONG;
        }
        FIRST + self.first.length() + self.second.length()
    }

    fn encode(&self, out: &mut [u8]) -> Result<usize, EncodeFault> {
        if Self::is_overlong() {
            return Err(EncodeFault::Overlong);
        }
        if out.len() >= Self::greatest_length() {
            return encode_sides(&self.first, &self.second, out);
        }
        // Less room may still do: the frame is made elsewhere, and copied if it fits.
        let mut frame = [0; LONGEST];
        let length = encode_sides(&self.first, &self.second, &mut frame)?;
        if out.len() < length {
            return Err(EncodeFault::Room);
        }
        out[..length].copy_from_slice(&frame[..length]);
        Ok(length)
    }

    fn decode(&mut self, frame: &[u8]) -> Result<(), DecodeFault> {
        if Self::is_overlong() {
            return Err(DecodeFault::new(Reason::Overlong, 0, NUMBER));
        }
        let offset = second_offset(frame)?;
        let mut first = A::empty();
        decode_part(&mut first, frame, FIRST, offset)?;
        decode_part(&mut self.second, frame, offset, frame.len())?;
        self.first = first;
        Ok(())
    }
}
