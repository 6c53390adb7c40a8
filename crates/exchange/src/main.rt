// How a program embeds a host: each host holds a value of one kind, counts readings in it, and passes frames. Three of them
// count clients here, pass frames by two routes, and come to agree byte by byte.
#![tactic(auto)]

mod host;

use host::Host;
use readings::Reading;
use std::io;
use texts::shown::Pairs;

// How many bytes of a frame get through where it is cut on the way.
const CUT: usize = 19;

fn reading(tenant: u32, item: u64, amount: u64) -> Reading {
    Reading {
        tenant,
        item,
        amount,
    }
}

// What each host sees. Client 1 is seen by two hosts.
fn readings(rt: &impl Print, alpha: &mut Host, beta: &mut Host) -> io::Result<()> {
    println!(rt; "1. The hosts count clients.")?;
    alpha.see(rt, reading(7, 0, 500))?;
    alpha.see(rt, reading(7, 1, 900))?;
    beta.see(rt, reading(8, 1, 40))?;
    beta.see(rt, reading(8, 2, 75))
}

// The first route, by way of beta; alpha's first frame stays on the wire meanwhile.
fn first_route(rt: &impl Print, alpha: &Host, beta: &mut Host, gamma: &mut Host) -> io::Result<()> {
    println!(rt; "2. By way of beta: alpha sends to beta, and beta to gamma.")?;
    let from_alpha = alpha.send(rt)?;
    beta.take(rt, &from_alpha)?;
    let from_beta = beta.send(rt)?;
    gamma.take(rt, &from_beta)
}

// The second route: one frame, late and twice.
fn second_route(rt: &impl Print, late: &[u8], gamma: &mut Host) -> io::Result<()> {
    println!(rt; "3. Straight from alpha: its first frame, late, and then once more.")?;
    println!(rt; "   it is {}", Pairs(late))?;
    gamma.take(rt, late)?;
    gamma.take(rt, late)
}

// Two frames, each with its host's name, and whether they are equal byte by byte.
fn compare(rt: &impl Print, one: (&str, &[u8]), other: (&str, &[u8])) -> io::Result<()> {
    for (name, frame) in [one, other] {
        println!(rt; "   {name}: {}", Pairs(frame))?;
    }
    let verdict = if one.1 == other.1 {
        "equal byte by byte"
    } else {
        "different"
    };
    println!(rt; "   They are {verdict}.")
}

// Bytes that were cut on the way.
fn cut_frame(rt: &impl Print, frame: &[u8], gamma: &mut Host) -> io::Result<()> {
    println!(rt; "5. A frame that was cut on the way.")?;
    let before = gamma.frame();
    let cut = &frame[..frame.len().min(CUT)];
    println!(rt; "   it is {}", Pairs(cut))?;
    gamma.take(rt, cut)?;
    let after = gamma.frame();
    compare(rt, ("gamma before", &before), ("gamma after", &after))
}

fn main(rt: HostRuntime) -> io::Result<()> {
    let mut alpha = Host::new("alpha");
    let mut beta = Host::new("beta");
    let mut gamma = Host::new("gamma");
    readings(&rt, &mut alpha, &mut beta)?;
    let late = alpha.frame();
    first_route(&rt, &alpha, &mut beta, &mut gamma)?;
    second_route(&rt, &late, &mut gamma)?;
    println!(rt; "4. The links are quiet.")?;
    let last = beta.frame();
    compare(&rt, ("beta", &last), ("gamma", &gamma.frame()))?;
    cut_frame(&rt, &last, &mut gamma)?;
    println!(rt; "6. How many clients does the rack have?")?;
    gamma.estimate(&rt)
}
