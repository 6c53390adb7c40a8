// The cases of one kind.
use crate::field::{Fault, bytes, size};
use crate::text::{frame, shown, written};
use bitmaps::maps::Bitmaps;
use layers::pair::Pair;
use least::row::LeastValues;
use readings::Reading;
use records::record::Record;
use runs::row::Row;
use sample::record::SampleRecord;
use sample::row::Sample;
use std::alloc::{AllocError, Global};
use synopsis::kind::Synopsis;

const MOST_ROOM: usize = 2100;

pub(crate) trait Odd: Synopsis + Eq {
    // A value with every place in use. Where the kind has rows, its row is no run.
    fn odd() -> Self;
}

impl Odd for Bitmaps {
    fn odd() -> Bitmaps {
        let maps = [u32::MAX; 64];
        Bitmaps { maps }
    }
}

impl Odd for LeastValues {
    fn odd() -> LeastValues {
        let places = [7; 64];
        let row = Row { count: 65, places };
        LeastValues { row }
    }
}

impl Odd for Sample {
    fn odd() -> Sample {
        let places = [SampleRecord::from(reading(7)); 32];
        let row = Row { count: 33, places };
        Sample { row }
    }
}

impl<A: Odd, B: Odd> Odd for Pair<A, B> {
    fn odd() -> Pair<A, B> {
        let (first, second) = (A::odd(), B::odd());
        Pair { first, second }
    }
}

fn reading(item: u64) -> Reading {
    Reading {
        tenant: 0,
        item,
        amount: 0,
    }
}

// The value of a reading of this item.
fn single<S: Synopsis>(item: u64) -> S {
    S::make(reading(item))
}

// The value of the items 1 and 2.
fn two_items<S: Synopsis>() -> S {
    let mut value: S = single(1);
    value.fuse(&single(2));
    value
}

// Decodes bytes into a place that equals `before`, and tells the outcome. An accepted value is encoded again: its frame is
// shown, or in brief whether it is the same bytes.
fn at_place<S: Odd>(
    heap: Global,
    mut place: S,
    before: &S,
    bytes: &[u8],
    brief: bool,
) -> Result<String, AllocError> {
    match place.decode(bytes) {
        Ok(()) if brief => {
            let same = frame(heap, &place)?.as_slice() == bytes;
            let again = if same { "same" } else { "other" };
            format!(in heap; "ok {} {again}", place.length())
        }
        Ok(()) => format!(in heap; "ok {}", written(heap, &place)?),
        Err(fault) => {
            let number = fault.reason.number();
            let after = if place == *before { "kept" } else { "changed" };
            format!(in heap; "no {number} {} {} {after}", fault.place, fault.kind)
        }
    }
}

// What both ways gave, or `apart` where they differ, which no case expects.
pub(crate) fn same(heap: Global, one: String, other: String) -> Result<String, AllocError> {
    if one != other {
        return String::from_str(heap, "apart");
    }
    Ok(one)
}

// Decodes bytes into a place that holds two items and into an odd one, which must not matter.
fn decoded<S: Odd>(heap: Global, bytes: &[u8], brief: bool) -> Result<String, AllocError> {
    let one = at_place::<S>(heap, two_items(), &two_items(), bytes, brief)?;
    let other = at_place::<S>(heap, S::odd(), &S::odd(), bytes, brief)?;
    same(heap, one, other)
}

// Outcomes as they come, with equal ones in a row counted.
#[derive(Drop)]
struct Tally {
    // what is written down
    told: String,
    // what came last, and how often in a row
    last: String,
    times: usize,
}

impl Tally {
    fn new(heap: Global) -> Tally {
        Tally {
            told: String::new(heap),
            last: String::new(heap),
            times: 0,
        }
    }

    // Writes down what was counted.
    fn settle(&mut self) -> Result<(), AllocError> {
        let gap = if self.told.is_empty() { "" } else { ", " };
        write!(self.told, "{gap}{}*{}", self.times, self.last)
    }

    // Counts what became of bytes.
    fn add(&mut self, outcome: String) -> Result<(), AllocError> {
        if self.times > 0 && outcome != self.last {
            self.settle()?;
            self.times = 0;
        }
        self.last = outcome;
        self.times = self.times.saturating_add(1);
        Ok(())
    }

    // All that was counted.
    fn end(mut self) -> Result<String, AllocError> {
        self.settle()?;
        Ok(self.told)
    }
}

// Decodes the bytes with one more, whichever it is.
fn extended<S: Odd>(heap: Global, front: &[u8]) -> Result<String, AllocError> {
    let mut tally = Tally::new(heap);
    let mut bytes = Vec::from_slice(heap, front)?;
    for last in 0..=255u8 {
        bytes.push(last)?;
        tally.add(decoded::<S>(heap, &bytes, true)?)?;
        bytes.truncate(front.len());
    }
    tally.end()
}

// Decodes each front part of the bytes.
fn cut<S: Odd>(heap: Global, bytes: &[u8]) -> Result<String, AllocError> {
    let mut tally = Tally::new(heap);
    for n in 0..=bytes.len() {
        tally.add(decoded::<S>(heap, &bytes[..n], true)?)?;
    }
    tally.end()
}

// Decodes the bytes with one of them changed by a mask, each in turn.
fn changed<S: Odd>(heap: Global, bytes: &[u8], mask: u8) -> Result<String, AllocError> {
    let mut tally = Tally::new(heap);
    for i in 0..bytes.len() {
        let mut other = Vec::from_slice(heap, bytes)?;
        if let Some(byte) = other.get_mut(i) {
            *byte ^= mask;
        }
        tally.add(decoded::<S>(heap, &other, true)?)?;
    }
    tally.end()
}

// Decodes the byte strings that a line asks about, one after another.
fn all_decoded<S: Odd>(heap: Global, fields: &[&str]) -> Result<String, Fault> {
    match fields {
        ["all", text] => Ok(extended::<S>(heap, &bytes(heap, text)?)?),
        ["cuts", text] => Ok(cut::<S>(heap, &bytes(heap, text)?)?),
        ["changes", text, mask] => {
            let (bytes, mask) = (bytes(heap, text)?, bytes(heap, mask)?);
            match mask.as_slice() {
                [mask] if !bytes.is_empty() => Ok(changed::<S>(heap, &bytes, *mask)?),
                _ => Err(Fault::Form),
            }
        }
        _ => Err(Fault::Form),
    }
}

// The value of a frame.
fn value_of<S: Synopsis>(frame: &[u8]) -> Result<S, Fault> {
    let mut value = S::empty();
    match value.decode(frame) {
        Ok(()) => Ok(value),
        Err(_) => Err(Fault::Form),
    }
}

// Encodes the value of a frame into a room whose neighbouring bytes differ.
fn encoded<S: Synopsis>(heap: Global, frame: &[u8], size: usize) -> Result<String, Fault> {
    if size > MOST_ROOM {
        return Err(Fault::Form);
    }
    let value: S = value_of(frame)?;
    let mut room = vec![in heap; 165u8; size]?;
    let mut next = 165u8;
    for byte in room.as_mut_slice() {
        *byte = next;
        next = next.wrapping_add(7);
    }
    let answer = value.encode(&mut room);
    let room = shown(heap, &room)?;
    Ok(match answer {
        Ok(length) => format!(in heap; "ok {length} {room}")?,
        Err(fault) => format!(in heap; "no {} {room}", fault.number())?,
    })
}

// Counts readings into a value, one after another, in three ways: by ADD, and by FUSE with what MAKE gives, either way round.
// `thrice` is the same value, once for each way.
pub(crate) fn counted<S: Synopsis>(
    heap: Global,
    thrice: (S, S, S),
    readings: &str,
) -> Result<String, Fault> {
    let (mut added, mut before, mut behind) = thrice;
    let bytes = bytes(heap, readings)?;
    let (records, rest) = bytes.as_slice().as_chunks::<20>();
    if !rest.is_empty() {
        return Err(Fault::Form);
    }
    for record in records {
        let reading = Reading::from(SampleRecord::get(record));
        added.add(reading);
        before.fuse(&S::make(reading));
        let mut made: S = S::make(reading);
        made.fuse(&behind);
        behind = made;
    }
    let fused = same(heap, written(heap, &before)?, written(heap, &behind)?)?;
    Ok(same(heap, written(heap, &added)?, fused)?)
}

// The number, the greatest length and the empty value of a kind.
fn itself<S: Synopsis>(heap: Global) -> Result<String, AllocError> {
    let (number, greatest) = (S::kind_number(), S::greatest_length());
    format!(in heap; "{number} {greatest} {}", written(heap, &S::empty())?)
}

// Answers a line, given its fields after the kind's letter.
pub(crate) fn answer<S: Odd>(heap: Global, fields: &[&str]) -> Result<String, Fault> {
    match fields {
        ["kind"] => Ok(itself::<S>(heap)?),
        ["decode", text] => Ok(decoded::<S>(heap, &bytes(heap, text)?, false)?),
        ["encode", text, room] => encoded::<S>(heap, &bytes(heap, text)?, size(room)?),
        ["add", text, readings] => {
            let frame = bytes(heap, text)?;
            let thrice = (value_of(&frame)?, value_of(&frame)?, value_of(&frame)?);
            counted::<S>(heap, thrice, readings)
        }
        _ => all_decoded::<S>(heap, fields),
    }
}
