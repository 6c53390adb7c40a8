// Readings told by their items.
ghost use Rattle.std.specs.Prelude.{◌≡◌, length};
ghost use Rattle.synopsis.specs.Kind.{encode_answer, encode_after};
ghost use Rattle.bench_calls.specs.Kinds.{written};
ghost use Rattle.bench_calls.specs.Counting.{reading_of, counted};

use readings::Reading;
use synopsis::fault::EncodeFault;
use synopsis::kind::Synopsis;

// The reading that stands for an item.
pub(crate) fn reading_of(item: u64) -> Reading
    ensures { result ≡ reading_of item }
{
    Reading {
        tenant: (item % 5) as u32,
        item,
        amount: item / 8,
    }
}

// The length of what was written.
fn written(answer: Result<usize, EncodeFault>) -> usize
    ensures { result ≡ written answer }
{
    match answer {
        Ok(length) => length,
        Err(_) => 0,
    }
}

// Counts them, and writes the encoding.
pub(crate) fn count<S: Synopsis>(items: &[u64], out: &mut [u8]) -> usize
    ensures answer { result ≡ written (encode_answer S.Synopsis.kind (counted S.Synopsis.kind items.now) (length out.old)) }
    ensures bytes { out.new ≡ encode_after S.Synopsis.kind (counted S.Synopsis.kind items.now) out.old }
{
    let mut value = S::empty();
    for item in items {
        value.add(reading_of(*item));
    }
    written(value.encode(out))
}
