// Values that are read from frames, encoded and joined.
ghost use Rattle.std.specs.Prelude.{◌≡◌, map, length, take, drop};
ghost use Rattle.std.specs.List.{fold};
ghost use Rattle.synopsis.specs.Kind.{encode_after};
ghost use Rattle.histories.specs.Folds.{read_as};
ghost use Rattle.bench_calls.specs.Values.{again, frame_at, refusal, taken, last_taken, refusals, forms, encoded, gathered, joined_last};

use crate::copied::Copied;
use synopsis::kind::Synopsis;

// Frame i of frames of one size, or what there is of it.
pub(crate) fn frame_at(frames: &[u8], size: usize, i: usize) -> &[u8]
    ensures { result.now ≡ frame_at size frames.now i }
{
    let from = i.saturating_mul(size).min(frames.len());
    let to = from.saturating_add(size).min(frames.len());
    &frames[from..to]
}

// DECODE: how many frames were refused, one or none.
#[inline(never)]
fn take_frame<S: Synopsis>(value: &mut S, frame: &[u8]) -> usize
    ensures answer { result ≡ refusal (S.Synopsis.kind.decoding frame.now) }
    ensures form { S.Synopsis.form value.new ≡ taken S.Synopsis.kind (S.Synopsis.form value.old) (S.Synopsis.kind.decoding frame.now) }
{
    match value.decode(frame) {
        Ok(()) => 0,
        Err(_) => 1,
    }
}

// ENCODE, into room that may be too short.
#[inline(never)]
fn put_frame<S: Synopsis>(value: &S, out: &mut [u8])
    ensures { out.new ≡ encode_after S.Synopsis.kind (S.Synopsis.form value.now) out.old }
{
    let _ = value.encode(out);
}

// FUSE.
#[inline(never)]
fn join<S: Synopsis>(value: &mut S, other: &S)
    ensures { S.Synopsis.form value.new ≡ S.Synopsis.kind.join (S.Synopsis.form value.old) (S.Synopsis.form other.now) }
{
    value.fuse(other);
}

// A copy of one value, and FUSE of another one into it.
fn join_copy<S: Copied>(place: &mut S, one: &S, other: &S)
    ensures { S.Synopsis.form place.new ≡ S.Synopsis.kind.join (S.Synopsis.form one.now) (S.Synopsis.form other.now) }
{
    *place = one.copied();
    join(place, other);
}

// Lets one value take frames, and writes its encoding; how many were refused.
pub(crate) fn decode<S: Synopsis>(frames: &[u8], size: usize, count: usize, out: &mut [u8]) -> usize
    ensures answer { result ≡ refusals S.Synopsis.kind size frames.now count }
    ensures bytes { out.new ≡ encode_after S.Synopsis.kind (last_taken S.Synopsis.kind size frames.now count) out.old }
{
    let mut value = S::empty();
    let mut refused = 0;
    for i in 0..count {
        refused += take_frame(&mut value, frame_at(frames, size, i));
    }
    put_frame(&value, out);
    refused
}

// A value for each frame, empty where it is refused.
#[tactic(auto, unfolding(crate::specs::Values::forms))]
fn read_all<S: Synopsis>(values: &mut [S], frames: &[u8], size: usize)
    ensures { map S.Synopsis.form values.new ≡ forms S.Synopsis.kind size frames.now (length values.old) }
{
    for (i, value) in values.iter_mut().enumerate() {
        let mut read = S::empty();
        take_frame(&mut read, frame_at(frames, size, i));
        *value = read;
    }
}

// Writes the encoding of each.
fn encode_all<S: Synopsis>(values: &[S], out: &mut [u8])
    ensures { out.new ≡ encoded S.Synopsis.kind (map S.Synopsis.form values.now) out.old }
{
    for value in values {
        put_frame(value, out);
    }
}

// Reads a value from each frame, and `rounds` times over writes the encoding of each.
pub(crate) fn encode<S: Synopsis>(
    values: &mut [S],
    frames: &[u8],
    size: usize,
    rounds: u64,
    out: &mut [u8],
)
    requires { length values.old ≡ 64 }
    ensures { out.new ≡ again (encoded S.Synopsis.kind (forms S.Synopsis.kind size frames.now 64)) rounds out.old }
{
    read_all(values, frames, size);
    for _round in 0..rounds {
        encode_all(values, out);
    }
}

// Joins each into one.
fn gather_all<S: Synopsis>(one: &mut S, values: &[S])
    ensures { S.Synopsis.form one.new ≡ gathered S.Synopsis.kind (map S.Synopsis.form values.now) (S.Synopsis.form one.old) }
{
    for value in values {
        join(one, value);
    }
}

// Reads a value from each frame, and `rounds` times over joins each into one, whose encoding it writes.
pub(crate) fn gather<S: Synopsis>(
    values: &mut [S],
    frames: &[u8],
    size: usize,
    rounds: u64,
    out: &mut [u8],
)
    ensures { out.new ≡ encode_after S.Synopsis.kind (again (gathered S.Synopsis.kind (forms S.Synopsis.kind size frames.now (length values.old))) rounds S.Synopsis.kind.none) out.old }
{
    read_all(values, frames, size);
    let mut one = S::empty();
    for _round in 0..rounds {
        gather_all(&mut one, values);
    }
    put_frame(&one, out);
}

// Joins a copy of one with each of others.
fn join_each<S: Copied>(place: &mut S, one: &S, others: &[S])
    ensures { S.Synopsis.form place.new ≡ fold (λ _ y. S.Synopsis.kind.join (S.Synopsis.form one.now) y) (S.Synopsis.form place.old) (map S.Synopsis.form others.now) }
{
    for other in others {
        join_copy(place, one, other);
    }
}

// Joins a copy of each with each of others.
fn join_all<S: Copied>(place: &mut S, values: &[S], others: &[S])
    ensures { S.Synopsis.form place.new ≡ joined_last S.Synopsis.kind (map S.Synopsis.form values.now) (map S.Synopsis.form others.now) (S.Synopsis.form place.old) }
{
    for one in values {
        join_each(place, one, others);
    }
}

// The same so many times over.
fn join_rounds<S: Copied>(place: &mut S, values: &[S], others: &[S], rounds: u64)
    ensures { S.Synopsis.form place.new ≡ again (joined_last S.Synopsis.kind (map S.Synopsis.form values.now) (map S.Synopsis.form others.now)) rounds (S.Synopsis.form place.old) }
{
    for _round in 0..rounds {
        join_all(place, values, others);
    }
}

// Reads a value from each frame, and `rounds` times over joins a copy of each of the first 32 with each of the others. It
// writes the encoding of the last one made.
pub(crate) fn fuse<S: Copied>(
    values: &mut [S],
    frames: &[u8],
    size: usize,
    rounds: u64,
    out: &mut [u8],
)
    requires { length values.old ≡ 64 }
    ensures { out.new ≡ encode_after S.Synopsis.kind (again (joined_last S.Synopsis.kind (take 32 (forms S.Synopsis.kind size frames.now 64)) (drop 32 (forms S.Synopsis.kind size frames.now 64))) rounds S.Synopsis.kind.none) out.old }
{
    read_all(values, frames, size);
    let (firsts, others) = values.split_at(32);
    let mut place = S::empty();
    join_rounds(&mut place, firsts, others, rounds);
    put_frame(&place, out);
}
