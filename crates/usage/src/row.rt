ghost use Rattle.std.specs.Prelude.{◌≡◌, ◌≤◌, length};
ghost use Rattle.usage.specs.Rows.{row_cells, row_layout, row_of};

use crate::cell::{Cell, put_cells};
use sample::record::SampleRecord;

/// How many columns a row has.
pub const COLUMNS: usize = 3;

/// How many bytes a row has: those of its columns.
pub const WIDTH: usize = 4 + 2 + 8;

/// What a page says of one tenant.
#[derive(Clone, Copy, PartialEq, Eq, Debug)]
pub struct Row {
    /// whose row it is
    pub tenant: u32,
    /// how many records of the sample are of the tenant
    pub records: u16,
    /// the greatest amount among them
    pub greatest: u64,
}

impl Row {
    // The row of a tenant, from the records of a sample.
    pub(crate) fn of(tenant: u32, sample: &[SampleRecord]) -> Row
        requires { length sample.now ≤ 32 }
        ensures { result ≡ row_of sample.now tenant }
    {
        let mut row = Row {
            tenant,
            records: 0,
            greatest: 0,
        };
        for kept in sample {
            if kept.tenant == tenant {
                row.records += 1;
                row.greatest = row.greatest.max(kept.amount);
            }
        }
        row
    }

    // The numbers of a row, a column each.
    fn cells(self) -> [Cell; COLUMNS]
        ensures { result ≡ row_cells self }
    {
        [
            Cell::from(self.tenant),
            Cell::from(self.records),
            Cell::from(self.greatest),
        ]
    }

    // Writes the row over `out`, which it fills.
    pub(crate) fn put(self, out: &mut [u8])
        requires { length out.old ≡ row_layout.width }
        ensures { out.new ≡ row_layout.written self }
    {
        put_cells(&self.cells(), out);
    }
}
