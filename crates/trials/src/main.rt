// Answers cases about kinds: for each line of standard input it prints a line.
#![tactic(auto)]

mod field;
mod kind;
mod row;
mod text;

use bitmaps::maps::Bitmaps;
use bitmaps::zeros::lowest_zero;
use field::{Fault, number, word};
use layers::pair::Pair;
use least::row::LeastValues;
use readings::{mark, mix, output};
use sample::row::Sample;
use std::alloc::{AllocError, Global};
use std::io::{BufRead, BufReader};
use usage::pile::{FourSamples, StandardPile};

const MOST_OUTPUTS: u64 = 64;

// The first outputs of the generator with this seed.
fn outputs(heap: Global, seed: u64, count: u64) -> Result<String, Fault> {
    if count > MOST_OUTPUTS {
        return Err(Fault::Form);
    }
    let mut told = String::from_str(heap, if count == 0 { "-" } else { "" })?;
    for i in 0..count {
        let gap = if i > 0 { " " } else { "" };
        write!(told, "{gap}{}", output(seed, i))?;
    }
    Ok(told)
}

// Answers a line about hashes.
fn of_hashes(heap: Global, fields: &[&str]) -> Result<String, Fault> {
    Ok(match fields {
        ["item", item] => {
            let hash = mix(word(item)?);
            let (bucket, rank) = mark(hash);
            format!(in heap; "{hash:016X} {bucket} {rank}")?
        }
        ["mark", hash] => {
            let (bucket, rank) = mark(word(hash)?);
            format!(in heap; "{bucket} {rank}")?
        }
        ["outputs", seed, count] => outputs(heap, number(seed)?, number(count)?)?,
        ["lowest", map] => {
            let map = u32::try_from(number(map)?).ok().ok_or(Fault::Form)?;
            lowest_zero(map).to_string(heap)?
        }
        _ => return Err(Fault::Form),
    })
}

fn answer(heap: Global, line: &str) -> Result<String, Fault> {
    let fields: Vec<&str> = line.split(' ').collect(heap)?;
    match fields.as_slice() {
        ["b", rest @ ..] => kind::answer::<Bitmaps>(heap, rest),
        ["v", rest @ ..] => row::answer::<LeastValues>(heap, rest),
        ["s", rest @ ..] => row::answer::<Sample>(heap, rest),
        ["p", rest @ ..] => kind::answer::<StandardPile>(heap, rest),
        ["t", rest @ ..] => kind::answer::<Pair<LeastValues, LeastValues>>(heap, rest),
        ["n", rest @ ..] => kind::answer::<Pair<Pair<Bitmaps, Sample>, LeastValues>>(heap, rest),
        ["o", rest @ ..] => kind::answer::<FourSamples>(heap, rest),
        fields => of_hashes(heap, fields),
    }
}

fn main(rt: HostRuntime) -> anyhow::Result<()> {
    for line in BufReader::new(rt.alloc(), rt.reader())?.lines(rt.alloc()) {
        match answer(rt.alloc(), line?.as_str()) {
            Ok(told) => rt.println(told)?,
            Err(Fault::Form) => rt.println("bad line")?,
            Err(Fault::Memory) => return Err(AllocError.into()),
        }
    }
    Ok(())
}
