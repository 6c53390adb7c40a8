// Plain rows, which need not be runs, for the two kinds that have them.
ghost use Rattle.std.specs.Prelude.{◌<◌, ◌^◌};

use crate::field::{Fault, bytes, size};
use crate::kind::{self, Odd, counted, same};
use crate::text::written;
use least::row::LeastValues;
use records::record::Record;
use runs::element::Fresh;
use runs::row::Row;
use sample::record::SampleRecord;
use sample::row::Sample;
use std::alloc::Global;

// The row with this count and these elements of W bytes each; the places behind them are blank.
fn read_row<R: Record + Fresh, const W: usize, const N: usize>(
    heap: Global,
    count: &str,
    elements: &str,
) -> Result<Row<R, N>, Fault>
    requires some { 0 < W }
    requires fits { W < 2 ^ 63 }
{
    let count = size(count)?;
    let bytes = bytes(heap, elements)?;
    let (parts, rest) = bytes.as_slice().as_chunks::<W>();
    if !rest.is_empty() || parts.len() > N {
        return Err(Fault::Form);
    }
    let mut places = [R::default(); N];
    for (place, part) in places.iter_mut().zip(parts) {
        *place = R::get(part);
    }
    Ok(Row { count, places })
}

// A kind whose values are plain rows.
pub(crate) trait Rows: Odd + Copy {
    // The value of a row.
    fn of_row(heap: Global, count: &str, elements: &str) -> Result<Self, Fault>;

    // The estimate, or the number of records.
    fn figure(&self) -> u64;
}

impl Rows for LeastValues {
    fn of_row(heap: Global, count: &str, elements: &str) -> Result<LeastValues, Fault> {
        let row = read_row::<u64, 8, 64>(heap, count, elements)?;
        Ok(LeastValues { row })
    }

    fn figure(&self) -> u64 {
        self.estimate()
    }
}

impl Rows for Sample {
    fn of_row(heap: Global, count: &str, elements: &str) -> Result<Sample, Fault> {
        let row = read_row::<SampleRecord, 20, 32>(heap, count, elements)?;
        Ok(Sample { row })
    }

    fn figure(&self) -> u64 {
        self.row.items().len() as u64
    }
}

// What a row stands for, its figure, and the value after readings were counted into it.
fn told<S: Rows>(heap: Global, row: S, readings: &str) -> Result<String, Fault> {
    let after = counted(heap, (row, row, row), readings)?;
    let (before, figure) = (written(heap, &row)?, row.figure());
    Ok(format!(in heap; "{before} {figure} {after}")?)
}

// The join of two rows, in both orders.
fn joined<S: Rows>(heap: Global, one: S, other: S) -> Result<String, Fault> {
    let (mut before, mut behind) = (one, other);
    before.fuse(&other);
    behind.fuse(&one);
    Ok(same(heap, written(heap, &before)?, written(heap, &behind)?)?)
}

// Answers a line, given its fields after the kind's letter.
pub(crate) fn answer<S: Rows>(heap: Global, fields: &[&str]) -> Result<String, Fault> {
    match fields {
        ["row", count, elements, readings] => {
            told::<S>(heap, S::of_row(heap, count, elements)?, readings)
        }
        ["fuse", count, elements, count_there, elements_there] => {
            let there = S::of_row(heap, count_there, elements_there)?;
            joined::<S>(heap, S::of_row(heap, count, elements)?, there)
        }
        fields => kind::answer::<S>(heap, fields),
    }
}
