ghost use Rattle.std.specs.Prelude.{◌≡◌, ◌*◌, ◌%◌, ◌^◌, ◌<◌, ◌==◌, cond, length};
ghost use Rattle.std.specs.List.{AllByRecursion, flat_map};
ghost use Rattle.frames.specs.Numbers.{low_bytes, from_bytes};
ghost use Rattle.records.specs.Records.{Layout, Readable, put_over, of_width, numbers, cut};
ghost use Rattle.records.specs.Layouts.{numbers_readable};

use frames::number::{get_number, put_number};
use runs::element::Element;

/// An element that a frame holds, in a fixed number of bytes.
pub trait Record: Element {
    ghost layout: { Layout Self };

    /// How many bytes a record has.
    fn width() -> usize
        ensures { result ≡ layout.width };

    /// Writes the record over `out`, if that has its width; else all bytes stay.
    fn put(self, out: &mut [u8])
        ensures whole { length out.old ≡ layout.width → out.new ≡ layout.written self }
        ensures over { out.new ≡ put_over layout self out.old };

    /// The record that bytes of its width are; of another number of bytes, the record that `layout.read` gives for none.
    fn get(bytes: &[u8]) -> Self
        ensures whole { length bytes.now ≡ layout.width → (result ≡ layout.read bytes.now) × (layout.written result ≡ bytes.now) }
        ensures value { result ≡ layout.read (of_width layout bytes.now) };

    ghost readable: { Readable layout };
}

// Writes records one behind the other over `out`, which they fill. By index: the proof needs it (docs/DECISIONS.md).
pub(crate) fn put_all<E: Record>(items: &[E], out: &mut [u8])
    requires { length out.old ≡ length items.now * E.Record.layout.width }
    ensures { out.new ≡ flat_map E.Record.layout.written items.now }
{
    let width = E::width();
    let mut at = 0;
    for x in items {
        x.put(&mut out[at..at + width]);
        at += width;
    }
}

// Reads as many records as `out` has places from bytes that they fill. By index, since a width may be zero.
pub(crate) fn get_all<E: Record>(bytes: &[u8], out: &mut [E])
    requires { length bytes.now ≡ length out.old * E.Record.layout.width }
    ensures value { out.new ≡ cut E.Record.layout (length out.old) bytes.now }
    ensures back { flat_map E.Record.layout.written out.new ≡ bytes.now }
{
    let width = E::width();
    let mut at = 0;
    for place in out.iter_mut() {
        *place = E::get(&bytes[at..at + width]);
        at += width;
    }
}

// Writes a number over `out`, if that has so many bytes.
fn put_sized(out: &mut [u8], width: usize, n: u64)
    ensures { out.new ≡ cond (length out.old == width) (low_bytes width n) out.old }
{
    if out.len() == width {
        put_number(out, n);
    }
}

// The number that so many bytes write, modulo 2^64; of another number of bytes, zero.
fn get_sized(bytes: &[u8], width: usize) -> u64
    ensures value { result ≡ from_bytes (of_width (numbers width) bytes.now) % 2 ^ 64 }
    ensures small { length bytes.now ≡ width → AllByRecursion (λ b. b < 256) bytes.now }
{
    if bytes.len() != width {
        return 0;
    }
    get_number(bytes)
}

// Numbers of 64 bits, as hash values are: eight bytes, highest first.
impl Record for u64 {
    ghost layout = { numbers 8 };

    ghost readable = { numbers_readable 7 };

    fn width() -> usize {
        8
    }

    fn put(self, out: &mut [u8]) {
        put_sized(out, 8, self);
    }

    fn get(bytes: &[u8]) -> u64 {
        get_sized(bytes, 8)
    }
}

// Numbers of 32 bits: four bytes, highest first.
impl Record for u32 {
    ghost layout = { numbers 4 };

    ghost readable = { numbers_readable 3 };

    fn width() -> usize {
        4
    }

    fn put(self, out: &mut [u8]) {
        put_sized(out, 4, u64::from(self));
    }

    fn get(bytes: &[u8]) -> u32 {
        (get_sized(bytes, 4) % (1 << 32)) as u32
    }
}
