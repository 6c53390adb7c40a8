ghost use Rattle.std.specs.Prelude.{◌≡◌, ◌<◌, ◌^◌, length};
ghost use Rattle.std.specs.List.{AllByRecursion};
ghost use Rattle.usage.specs.Cells.{cell, width_of, bytes_of};

use frames::number::put_number;

// A number of a page, in so many bytes.
#[derive(Clone, Copy)]
pub(crate) struct Cell {
    pub(crate) width: usize,
    pub(crate) value: u64,
}

// Each number in as many bytes as its type has.
impl From<u16> for Cell {
    ghost from_gives = { λ n r. r ≡ cell 2 n };

    fn from(number: u16) -> Cell {
        Cell {
            width: 2,
            value: u64::from(number),
        }
    }
}

impl From<u32> for Cell {
    ghost from_gives = { λ n r. r ≡ cell 4 n };

    fn from(number: u32) -> Cell {
        Cell {
            width: 4,
            value: u64::from(number),
        }
    }
}

impl From<u64> for Cell {
    ghost from_gives = { λ n r. r ≡ cell 8 n };

    fn from(number: u64) -> Cell {
        Cell {
            width: 8,
            value: number,
        }
    }
}

// Writes numbers one behind the other over `out`, which they fill.
pub(crate) fn put_cells(cells: &[Cell], out: &mut [u8])
    requires room { length out.old ≡ width_of cells.now }
    requires fits { AllByRecursion (λ c. c.value < 256 ^ c.width) cells.now }
    ensures { out.new ≡ bytes_of cells.now }
{
    let mut at = 0;
    for cell in cells {
        let Cell { width, value } = *cell;
        put_number(&mut out[at..at + width], value);
        at += width;
    }
}
