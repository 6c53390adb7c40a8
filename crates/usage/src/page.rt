ghost use Rattle.std.specs.Prelude.{◌≡◌, ◌*◌, ◌≤◌, length};
ghost use Rattle.std.specs.List.{flat_map};
ghost use Rattle.usage.specs.Rows.{tenants_of, row_of, row_layout};
ghost use Rattle.usage.specs.Pages.{pile_form, usage_answer, usage_after};
ghost use Rattle.usage.specs.Meaning.{PagesTell, NamedByEncoding};

use crate::fault::PageFault;
use crate::header::{HEADER, Header};
use crate::pile::StandardPile;
use crate::row::{Row, WIDTH};
use arrayvec::ArrayVec;
use sample::record::SampleRecord;

// How many rows a page has at most, since a sample has so many records.
const MOST: usize = 32;

/// How many bytes of room `usage` asks for: 480, the length of the longest page.
pub const LEAST_ROOM: usize = HEADER + MOST * WIDTH;

// The tenants of some records, rising, each once.
fn tenants_of(sample: &[SampleRecord]) -> ArrayVec<u32, MOST>
    requires { length sample.now ≤ 32 }
    ensures { result.items ≡ tenants_of sample.now }
{
    let mut tenants = ArrayVec::new();
    for kept in sample {
        if let Err(place) = tenants.binary_search(&kept.tenant) {
            tenants.insert(place, kept.tenant);
        }
    }
    tenants
}

// Writes the rows of some tenants one behind the other over `out`, which they fill.
fn put_rows(tenants: &[u32], sample: &[SampleRecord], out: &mut [u8])
    requires few { length sample.now ≤ 32 }
    requires room { length out.old ≡ length tenants.now * row_layout.width }
    ensures { out.new ≡ flat_map (λ t. row_layout.written (row_of sample.now t)) tenants.now }
{
    let mut at = 0;
    for tenant in tenants {
        Row::of(*tenant, sample).put(&mut out[at..at + WIDTH]);
        at += WIDTH;
    }
}

/// Writes the usage page of a value at the front of `out`, and answers where it ends; the other bytes stay. Fewer than
/// `LEAST_ROOM` bytes are refused, and stay as well.
pub fn usage(value: &StandardPile, out: &mut [u8]) -> Result<usize, PageFault>
    ensures answer { result ≡ usage_answer (pile_form value.now) (length out.old) }
    ensures after { out.new ≡ usage_after (pile_form value.now) out.old }
    ensures tells { PagesTell }
    ensures named { NamedByEncoding }
{
    if out.len() < LEAST_ROOM {
        return Err(PageFault::Room);
    }
    let sample = value.second.second.row.items();
    let tenants = tenants_of(sample);
    let header = Header::of(value, tenants.len());
    let end = usize::from(header.end);
    header.put(&mut out[0..HEADER]);
    put_rows(&tenants, sample, &mut out[HEADER..end]);
    Ok(end)
}
