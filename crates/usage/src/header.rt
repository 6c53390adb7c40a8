ghost use Rattle.std.specs.Prelude.{◌≡◌, ◌≤◌, length};
ghost use Rattle.usage.specs.Pages.{header_cells, header_bytes, header_width, header_for, pile_form};

use crate::cell::{Cell, put_cells};
use crate::pile::StandardPile;
use crate::row::{COLUMNS, WIDTH};

/// How many bytes a header has; the first row follows.
pub const HEADER: usize = 32;

/// What a page says before its rows.
#[derive(Clone, Copy, PartialEq, Eq, Debug)]
pub struct Header {
    /// how many rows follow
    pub rows: u16,
    /// how many columns each of them has
    pub columns: u16,
    /// where the first row begins, in bytes
    pub first: u16,
    /// where the last one ends, which is the length of the page
    pub end: u16,
    /// the bitmaps' estimate of how many different items were read
    pub bitmap_estimate: u64,
    /// the least values' estimate of the same
    pub least_estimate: u64,
    /// S of the bitmaps
    pub sum: u32,
    /// n of the least values
    pub least_count: u32,
}

impl Header {
    // The header of the page of a value, with so many rows.
    pub(crate) fn of(value: &StandardPile, rows: usize) -> Header
        requires { rows ≤ 32 }
        ensures { result ≡ header_for (pile_form value.now) rows }
    {
        let least = value.second.first.row.items();
        Header {
            rows: rows as u16,
            columns: COLUMNS as u16,
            first: HEADER as u16,
            end: (HEADER + rows * WIDTH) as u16,
            bitmap_estimate: value.first.estimate(),
            least_estimate: value.second.first.estimate(),
            sum: value.first.sum(),
            least_count: least.len() as u32,
        }
    }

    // The numbers of a header.
    fn cells(self) -> [Cell; 8]
        ensures { result ≡ header_cells self }
    {
        [
            Cell::from(self.rows),
            Cell::from(self.columns),
            Cell::from(self.first),
            Cell::from(self.end),
            Cell::from(self.bitmap_estimate),
            Cell::from(self.least_estimate),
            Cell::from(self.sum),
            Cell::from(self.least_count),
        ]
    }

    // Writes the header over `out`, which it fills.
    pub(crate) fn put(self, out: &mut [u8])
        requires { length out.old ≡ header_width }
        ensures { out.new ≡ header_bytes self }
    {
        put_cells(&self.cells(), out);
    }
}
