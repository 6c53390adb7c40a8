// The library's calls by the C convention, for the measurement in `bench/`: on numbers and bytes, for each kind by its number,
// 1 bitmaps, 2 least values, 3 the sample, any other number the standard pile.
#![tactic(auto)]

mod copied;
mod counting;
mod scripts;
mod turns;
mod values;

ghost use Rattle.std.specs.Prelude.{◌≡◌, ◌⊎◌, length, take, drop};
ghost use Rattle.synopsis.specs.Kind.{encode_answer, encode_after};
ghost use Rattle.bench_calls.specs.Kinds.{by_kind, written};
ghost use Rattle.bench_calls.specs.Counting.{counted};
ghost use Rattle.network.specs.Calls.{open_answer};
ghost use Rattle.session.specs.Printed.{printed};
ghost use Rattle.bench_calls.specs.Turns.{ended};
ghost use Rattle.bench_calls.specs.Values.{again, last_taken, refusals, forms, encoded, gathered, joined_last};

use crate::turns::NODES;
use bitmaps::maps::Bitmaps;
use least::row::LeastValues;
use sample::row::Sample;
use std::array;
use synopsis::kind::Synopsis;
use usage::pile::StandardPile;

/// How many frames are read as values.
const FRAMES: usize = 64;

// As many empty piles.
fn piles<const N: usize>() -> [StandardPile; N]
    ensures { length result ≡ N }
{
    array::from_fn(|_| StandardPile::empty())
}

/// Counts a reading for each item, and writes the encoding at the front of `out`. It answers the encoding's length in bytes, or
/// 0 where `out` is too short, which then stays.
#[unsafe(no_mangle)]
pub extern "C" fn bench_count(kind: u32, items: &[u64], out: &mut [u8]) -> usize
    ensures answer { result ≡ by_kind (λ k. written (encode_answer k (counted k items.now) (length out.old))) kind }
    ensures bytes { out.new ≡ by_kind (λ k. encode_after k (counted k items.now) out.old) kind }
{
    match kind {
        1 => counting::count::<Bitmaps>(items, out),
        2 => counting::count::<LeastValues>(items, out),
        3 => counting::count::<Sample>(items, out),
        _ => counting::count::<StandardPile>(items, out),
    }
}

/// Lets one value take `count` frames of `size` bytes each, one after the other, and writes its encoding at the front of `out`,
/// which stays where it is too short. It answers how many frames were refused.
#[unsafe(no_mangle)]
pub extern "C" fn bench_decode(
    kind: u32,
    frames: &[u8],
    size: usize,
    count: usize,
    out: &mut [u8],
) -> usize
    ensures answer { result ≡ by_kind (λ k. refusals k size frames.now count) kind }
    ensures bytes { out.new ≡ by_kind (λ k. encode_after k (last_taken k size frames.now count) out.old) kind }
{
    match kind {
        1 => values::decode::<Bitmaps>(frames, size, count, out),
        2 => values::decode::<LeastValues>(frames, size, count, out),
        3 => values::decode::<Sample>(frames, size, count, out),
        _ => values::decode::<StandardPile>(frames, size, count, out),
    }
}

/// Reads 64 frames of `size` bytes each, where a refused one stands for the empty form, and `rounds` times over writes the
/// encoding of each at the front of `out`, which stays where it is too short.
#[unsafe(no_mangle)]
pub extern "C" fn bench_encode(kind: u32, frames: &[u8], size: usize, rounds: u64, out: &mut [u8])
    ensures { out.new ≡ by_kind (λ k. again (encoded k (forms k size frames.now 64)) rounds out.old) kind }
{
    match kind {
        1 => values::encode(&mut [Bitmaps::empty(); FRAMES], frames, size, rounds, out),
        2 => values::encode(
            &mut [LeastValues::empty(); FRAMES],
            frames,
            size,
            rounds,
            out,
        ),
        3 => values::encode(&mut [Sample::empty(); FRAMES], frames, size, rounds, out),
        _ => values::encode(&mut piles::<FRAMES>(), frames, size, rounds, out),
    }
}

/// Reads 64 frames as `bench_encode` does, and `rounds` times over joins each of them into one value, which is empty at first.
/// The value's encoding goes to the front of `out`, which stays where it is too short.
#[unsafe(no_mangle)]
pub extern "C" fn bench_gather(kind: u32, frames: &[u8], size: usize, rounds: u64, out: &mut [u8])
    ensures { out.new ≡ by_kind (λ k. encode_after k (again (gathered k (forms k size frames.now 64)) rounds k.none) out.old) kind }
{
    match kind {
        1 => values::gather(&mut [Bitmaps::empty(); FRAMES], frames, size, rounds, out),
        2 => values::gather(
            &mut [LeastValues::empty(); FRAMES],
            frames,
            size,
            rounds,
            out,
        ),
        3 => values::gather(&mut [Sample::empty(); FRAMES], frames, size, rounds, out),
        _ => values::gather(&mut piles::<FRAMES>(), frames, size, rounds, out),
    }
}

/// Reads 64 frames as `bench_encode` does, and `rounds` times over joins to a copy of each of the first 32 each of the last 32
/// in turn. The encoding of the last value that was made, empty if none was, goes to the front of `out`, which stays where it
/// is too short.
#[unsafe(no_mangle)]
pub extern "C" fn bench_fuse(kind: u32, frames: &[u8], size: usize, rounds: u64, out: &mut [u8])
    ensures { out.new ≡ by_kind (λ k. encode_after k (again (joined_last k (take 32 (forms k size frames.now 64)) (drop 32 (forms k size frames.now 64))) rounds k.none) out.old) kind }
{
    match kind {
        1 => values::fuse(&mut [Bitmaps::empty(); FRAMES], frames, size, rounds, out),
        2 => values::fuse(
            &mut [LeastValues::empty(); FRAMES],
            frames,
            size,
            rounds,
            out,
        ),
        3 => values::fuse(&mut [Sample::empty(); FRAMES], frames, size, rounds, out),
        _ => values::fuse(&mut piles::<FRAMES>(), frames, size, rounds, out),
    }
}

/// Opens a network of seven nodes over the memory, and makes a turn for each word. The lowest bits of a word tell, from the
/// lowest up: 4 what is done (0 and 1 GENERATE, 2 ARRIVE, 3 to 6 SEND, 7 to 10 DELIVER, 11 to 13 DROP, 14 and 15 READ), 3 the
/// node, 6 the slot, and the others the item of a reading, or by their remainder by 64 which one of the frames of `size` bytes
/// arrives. READ has all of the room. It answers the sum of the answers, each time 31 times what it was plus the number of a
/// refusal or the length of what was read, modulo 2^64; where OPEN is refused, the number of that.
#[unsafe(no_mangle)]
pub extern "C" fn bench_turns(
    kind: u32,
    words: &[u64],
    frames: &[u8],
    size: usize,
    memory: &mut [u8],
    room: &mut [u8],
) -> u64
    ensures answer { result ≡ by_kind (λ k. (ended k size frames.now words.now memory.old room.old (open_answer k 7 7 (length memory.old))).sum) kind }
    ensures memory { memory.new ≡ by_kind (λ k. (ended k size frames.now words.now memory.old room.old (open_answer k 7 7 (length memory.old))).state.memory) kind }
    ensures room { room.new ≡ by_kind (λ k. (ended k size frames.now words.now memory.old room.old (open_answer k 7 7 (length memory.old))).room) kind }
{
    match kind {
        1 => turns::run(
            &mut [Bitmaps::empty(); NODES],
            words,
            frames,
            size,
            memory,
            room,
        ),
        2 => turns::run(
            &mut [LeastValues::empty(); NODES],
            words,
            frames,
            size,
            memory,
            room,
        ),
        3 => turns::run(
            &mut [Sample::empty(); NODES],
            words,
            frames,
            size,
            memory,
            room,
        ),
        _ => turns::run(&mut piles::<NODES>(), words, frames, size, memory, room),
    }
}

/// Replays a script, and writes what is printed at the front of `out`. It answers how many bytes that is, or `usize::MAX`, as
/// where they are more than `out` has or more than 1 MiB.
#[unsafe(no_mangle)]
pub extern "C" fn bench_replay(script: &[u8], out: &mut [u8]) -> usize
    ensures { (result ≡ usize.MAX) ⊎ (take result out.new ≡ printed script.now) }
{
    scripts::replay(script, out)
}
