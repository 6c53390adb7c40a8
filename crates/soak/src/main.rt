// Makes many turns, drawn from a seed, on a network of seven nodes, in memory that is there from the start. Each line of
// standard input names a kind, a seed and how many turns to make; for each it prints a line.
#![tactic(auto)]

mod counts;
mod told;

use bitmaps::maps::Bitmaps;
use counts::Counts;
use diffusion::turn::make_turn;
use least::row::LeastValues;
use network::calls::MEMORY;
use network::table::Network;
use readings::output;
use sample::row::Sample;
use std::array;
use std::io::{self, BufRead, BufReader};
use synopsis::kind::{LONGEST, Synopsis};
use texts::shown::Pairs;
use told::{NODES, turn_of};
use usage::pile::StandardPile;

const MOST_TURNS: u64 = 100_000_000;

// A decimal number without a needless leading zero.
fn number(text: &str) -> Option<u64> {
    match text.as_bytes() {
        [b'0'] | [b'1'..=b'9', ..] => text.parse().ok(),
        _ => None,
    }
}

// Makes the turns, and prints their counts and what a READ of each node then gives.
fn soak<S: Synopsis>(
    rt: &impl Print,
    values: &mut [S],
    memory: &mut [u8],
    seed: u64,
    turns: u64,
) -> io::Result<()> {
    let mut network = Network::new();
    if network.open(values, memory, NODES).is_err() {
        return rt.println("bad line");
    }
    let mut counts = Counts::new();
    let mut room = [0; LONGEST];
    for i in 0..turns {
        let turn = turn_of::<S>(output(seed, i), &mut room);
        if let Err(never) = make_turn(&mut network, values, memory, &turn, &mut counts) {
            match never {}
        }
    }
    print!(rt; "{counts}")?;
    for node in 0..NODES {
        match network.read(values, memory, node, &mut room) {
            Ok(length) => print!(rt; ";{}", Pairs(&room[..length]))?,
            Err(fault) => print!(rt; ";no {}", fault.number())?,
        }
    }
    println!(rt;)
}

// Values of each kind, and memory, which all lines use in turn.
#[derive(Drop)]
struct Lent {
    maps: [Bitmaps; NODES],
    least: [LeastValues; NODES],
    samples: [Sample; NODES],
    piles: [StandardPile; NODES],
    memory: [u8; MEMORY],
}

fn answer(rt: &impl Print, lent: &mut Lent, line: &str) -> io::Result<()> {
    let mut fields = line.split(' ');
    let letter = fields.next();
    let (seed, turns) = (
        fields.next().and_then(number),
        fields.next().and_then(number),
    );
    let memory = &mut lent.memory;
    match (letter, seed, turns, fields.next()) {
        (Some(letter), Some(seed), Some(turns), None) if turns <= MOST_TURNS => match letter {
            "b" => soak(rt, &mut lent.maps, memory, seed, turns),
            "v" => soak(rt, &mut lent.least, memory, seed, turns),
            "s" => soak(rt, &mut lent.samples, memory, seed, turns),
            "p" => soak(rt, &mut lent.piles, memory, seed, turns),
            _ => rt.println("bad line"),
        },
        _ => rt.println("bad line"),
    }
}

fn main(rt: HostRuntime) -> anyhow::Result<()> {
    let mut lent = Lent {
        maps: [Bitmaps::empty(); NODES],
        least: [LeastValues::empty(); NODES],
        samples: [Sample::empty(); NODES],
        piles: array::from_fn(|_| StandardPile::empty()),
        memory: [0; MEMORY],
    };
    for line in BufReader::new(rt.alloc(), rt.reader())?.lines(rt.alloc()) {
        answer(&rt, &mut lent, line?.as_str())?;
    }
    Ok(())
}
