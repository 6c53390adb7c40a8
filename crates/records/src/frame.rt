ghost use Rattle.std.specs.Prelude.{◌≡◌, ◌≤◌, true, false, T, length, take, drop, Ok, Err, MatchOption, MatchResult};
ghost use Rattle.runs.specs.Runs.{rising, as_run, form_of};
ghost use Rattle.records.specs.RecordFrames.{end_of, fits_frame, frame_of, records_length, records_answer, records_after, read_records, placed_over, Placed};
ghost use Rattle.records.specs.RunKind.{read_frame};

use crate::record::{Record, get_all, put_all};
use frames::header::{Header, header_bytes, read_header};
use runs::element::Fresh;
use runs::row::Row;
use runs::run::fall;
use synopsis::fault::{DecodeFault, EncodeFault, Reason};
use synopsis::kind::OVERLONG;

// What the header of a frame with so many records says; none where they do not fit.
fn header_of<E: Record>(count: usize) -> Option<Header>
    ensures { MatchOption result (fits_frame E.Record.layout count ≡ false) (λ header. (fits_frame E.Record.layout count ≡ true) × (header.count ≡ count) × (header.end ≡ end_of E.Record.layout count)) }
{
    let end = count.checked_mul(E::width())?.checked_add(4)?;
    let count = u8::try_from(count).ok()?;
    let end = u16::try_from(end).ok()?;
    Some(Header { count, end })
}

/// The length in bytes of the frame of these records; 2,049 where they do not fit into one.
pub fn records_length<E: Record>(items: &[E]) -> usize
    ensures { result ≡ records_length E.Record.layout (length items.now) }
{
    match header_of::<E>(items.len()) {
        Some(header) => usize::from(header.end),
        None => OVERLONG,
    }
}

/// Writes the frame of a kind with these records at the front of `out`, and answers its length in bytes. It refuses with
/// `Overlong` records that do not fit into a frame, and with `Room` fewer bytes than the frame has; then all bytes stay.
pub fn encode_records<E: Record>(
    kind: u8,
    items: &[E],
    out: &mut [u8],
) -> Result<usize, EncodeFault>
    ensures answer { result ≡ records_answer kind E.Record.layout items.now (length out.old) }
    ensures after { out.new ≡ records_after kind E.Record.layout items.now out.old }
{
    let Some(header) = header_of::<E>(items.len()) else {
        return Err(EncodeFault::Overlong);
    };
    let end = usize::from(header.end);
    if out.len() < end {
        return Err(EncodeFault::Room);
    }
    out[0..4].copy_from_slice(&header_bytes(kind, header));
    put_all(items, &mut out[4..end]);
    Ok(end)
}

/// The length in bytes of the frame of the run that a row stands for; 2,049 where its records do not fit into one frame.
pub fn row_length<E: Record, const N: usize>(row: &Row<E, N>) -> usize
    ensures { result ≡ records_length E.Record.layout (length (form_of E.Ord.cmp E.Element.blank row.now).items) }
{
    records_length(row.items())
}

/// Writes the frame of a kind with the records of the run that a row stands for, as `encode_records` does.
pub fn encode_row<E: Record, const N: usize>(
    kind: u8,
    row: &Row<E, N>,
    out: &mut [u8],
) -> Result<usize, EncodeFault>
    ensures answer { result ≡ records_answer kind E.Record.layout (form_of E.Ord.cmp E.Element.blank row.now).items (length out.old) }
    ensures after { out.new ≡ records_after kind E.Record.layout (form_of E.Ord.cmp E.Element.blank row.now).items out.old }
{
    encode_records(kind, row.items(), out)
}

/// Reads a frame of a kind with at least `fewest` records into the front of `out`, which has a place for each of its most
/// records, and answers how many it has; the other places stay, and on a refusal all of them. It refuses with `Short`, then
/// `OtherKind`, then `Count`, and then with `End` an end that is not both the number of bytes and what the count asks for.
pub fn decode_records<E: Record>(
    kind: u8,
    fewest: u8,
    frame: &[u8],
    out: &mut [E],
) -> Result<usize, DecodeFault>
    ensures { MatchResult result (Placed kind fewest (length out.old) E.Record.layout frame.now out.old out.new) (λ e. (read_records kind fewest (length out.old) E.Record.layout frame.now ≡ Err e) × (out.new ≡ out.old)) }
{
    let most = u8::try_from(out.len()).unwrap_or(u8::MAX);
    let header = read_header(frame, kind, fewest, most)?;
    let count = usize::from(header.count);
    let other_end = DecodeFault::new(Reason::End, 2, kind);
    let Some(Header { end, .. }) = header_of::<E>(count) else {
        return Err(other_end);
    };
    let end = usize::from(end);
    if usize::from(header.end) != end || end != frame.len() {
        return Err(other_end);
    }
    get_all(&frame[4..end], &mut out[0..count]);
    Ok(count)
}

/// Reads a frame of a kind whose records rise, and otherwise as `decode_records` does; a record that is not greater than
/// its predecessor is refused after it was read.
pub fn decode_run<E: Record>(kind: u8, frame: &[u8], out: &mut [E]) -> Result<usize, DecodeFault>
    ensures answer { MatchResult result (λ n. (n ≤ length out.old) × (read_frame kind (length out.old) E.Record.layout E.Ord.cmp frame.now ≡ Ok (as_run E.Ord.cmp (length out.old) (take n out.new))) × T (rising E.Ord.cmp (take n out.new)) × (frame_of kind E.Record.layout (take n out.new) ≡ frame.now) × (drop n out.new ≡ drop n out.old)) (λ e. read_frame kind (length out.old) E.Record.layout E.Ord.cmp frame.now ≡ Err e) }
    ensures after { out.new ≡ placed_over (read_records kind 0 (length out.old) E.Record.layout frame.now) out.old }
{
    let width = E::width();
    let count = decode_records(kind, 0, frame, out)?;
    if let Some(i) = fall(&out[0..count]) {
        return Err(DecodeFault::new(Reason::Order, 4 + i * width, kind));
    }
    Ok(count)
}

/// Reads a frame of a kind whose records rise into a row with a place for each of its most records; it refuses as
/// `decode_run` does, and then the row stays.
pub fn decode_row<E: Record + Fresh, const N: usize>(
    kind: u8,
    frame: &[u8],
    row: &mut Row<E, N>,
) -> Result<(), DecodeFault>
    ensures { MatchResult result (λ _. (read_frame kind N E.Record.layout E.Ord.cmp frame.now ≡ Ok (form_of E.Ord.cmp E.Element.blank row.new)) × (frame_of kind E.Record.layout (form_of E.Ord.cmp E.Element.blank row.new).items ≡ frame.now)) (λ e. (read_frame kind N E.Record.layout E.Ord.cmp frame.now ≡ Err e) × (row.new ≡ row.old)) }
{
    let mut places = [E::default(); N];
    let count = decode_run(kind, frame, &mut places)?;
    *row = Row { count, places };
    Ok(())
}
