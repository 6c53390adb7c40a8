// What no script can say: too few values, too little memory or room, an overlong kind, and the greatest numbers.
use crate::expects::{Expects, Want};
use crate::table::{OVERLONG, Row, SAMPLES, Step};
use diffusion::answer::Answer;
use diffusion::answers::{Answers, OwnedAnswer};
use diffusion::listener::Listener;
use diffusion::run::{run, run_until};
use diffusion::turn::make_turn;
use diffusion::values::empty_values;
use histories::{Call, Turn};
use least::row::LeastValues;
use network::calls::MEMORY;
use network::table::Network;
use readings::Reading;
use sample::row::Sample;
use std::array;
use std::test::Fail;
use synopsis::fault::EncodeFault;
use synopsis::kind::{LONGEST, Synopsis};
use usage::pile::FourSamples;

const VALUES: usize = 3;

// How many values and how many bytes of memory each of a row's three turns is lent.
const FRONTS: [(usize, usize); 3] = [(1, MEMORY), (VALUES, MEMORY - 1), (VALUES, MEMORY)];

// What the bytes of a room hold before a READ.
const UNTOUCHED: u8 = 0xA5;

// The call of a step, or how many nodes an OPEN opens.
fn call_of(step: Step) -> Result<Call<'static>, usize> {
    Ok(match step {
        Step::Open(nodes) => return Err(nodes),
        Step::Generate(node, tenant, item, amount) => Call::Generate {
            node,
            reading: Reading {
                tenant,
                item,
                amount,
            },
        },
        Step::Arrive(node, frame) => Call::Arrive { node, frame },
        Step::Send(node, slot) => Call::Send { node, slot },
        Step::Deliver(slot, node) => Call::Deliver { slot, node },
        Step::Drop(slot) => Call::Drop { slot },
        Step::Read(node, room) => Call::Read { node, room },
    })
}

// OPEN, as an answer.
fn open<S: Synopsis>(
    network: &mut Network,
    values: &mut [S],
    memory: &[u8],
    nodes: usize,
) -> Answer<'static> {
    match network.open(values, memory, nodes) {
        Ok(()) => Answer::Done,
        Err(fault) => Answer::Refused(fault),
    }
}

// Whether a READ writes nothing behind the frame, and nothing at all where it is refused.
fn leaves_rest<S: Synopsis>(network: &Network, values: &[S], memory: &[u8], step: Step) -> bool {
    let Step::Read(node, wanted) = step else {
        return true;
    };
    let mut room = [UNTOUCHED; LONGEST];
    let read = network.read(values, memory, node, &mut room[..wanted.min(LONGEST)]);
    let end = read.unwrap_or(0);
    room.iter().skip(end).all(|byte| *byte == UNTOUCHED)
}

// Makes the turns of a row; whether all their answers are right.
fn is_right<S: Synopsis>(
    network: &mut Network,
    values: &mut [S],
    memory: &mut [u8],
    row: &Row,
) -> bool {
    let mut expects = Expects {
        wants: row.1,
        met: true,
    };
    let mut untouched = true;
    for (v, m) in FRONTS {
        let (v, m) = (v.min(values.len()), m.min(memory.len()));
        let heard = match call_of(row.0) {
            Ok(call) => {
                let turn = Turn {
                    values: v,
                    bytes: m,
                    call,
                };
                make_turn(network, values, memory, &turn, &mut expects)
            }
            Err(nodes) => expects.hear(open(network, &mut values[..v], &memory[..m], nodes)),
        };
        untouched = untouched && leaves_rest(network, &values[..v], &memory[..m], row.0);
        if let Err(never) = heard {
            match never {}
        }
    }
    expects.met && expects.wants.is_empty() && untouched
}

// Makes all turns of a table; the first row with a wrong answer.
fn first_wrong<S: Synopsis>(values: &mut [S], memory: &mut [u8], rows: &[Row]) -> Option<usize> {
    let mut network = Network::new();
    for (place, row) in rows.iter().enumerate() {
        if !is_right(&mut network, values, memory, row) {
            return Some(place);
        }
    }
    None
}

#[test]
fn answers_samples(rt: HostRuntime) {
    let mut values = [Sample::empty(); VALUES];
    let mut memory = [0; MEMORY];
    assert_eq!(rt; first_wrong(&mut values, &mut memory, SAMPLES), None);
}

#[test]
fn refuses_an_overlong_kind(rt: HostRuntime) {
    let mut values: [FourSamples; VALUES] = array::from_fn(|_| FourSamples::empty());
    let mut memory = [0; MEMORY];
    assert_eq!(rt; first_wrong(&mut values, &mut memory, OVERLONG), None);
    assert_eq!(rt; values[0].encode(&mut memory), Err(EncodeFault::Overlong));
    assert!(rt; memory.iter().all(|byte| *byte == 0));
}

// Eight turns, four of which are refused.
fn example() -> [Turn<'static>; 8] {
    let reading = Reading {
        tenant: 7,
        item: 0,
        amount: 500,
    };
    let read = Call::Read {
        node: 1,
        room: LONGEST,
    };
    [
        Call::Generate { node: 0, reading },
        Call::Send { node: 0, slot: 3 },
        Call::Send { node: 1, slot: 3 },
        Call::Deliver { slot: 3, node: 1 },
        read,
        Call::Deliver { slot: 4, node: 1 },
        Call::Generate { node: 3, reading },
        Call::Drop { slot: 32 },
    ]
    .map(|call| Turn {
        values: VALUES,
        bytes: MEMORY,
        call,
    })
}

// What node 1 is then read as.
const FRAME: &[u8] = b"\x02\x01\x00\x0C\xE2\x20\xA8\x39\x7B\x1D\xCD\xAF";

// Nothing here allocates, so it passes with an allocator that fails, as under `rt try --test --fail-alloc 1`.
#[test]
fn runs_without_memory(rt: HostRuntime) {
    let wants = [
        Want::Done,
        Want::Done,
        Want::No(7),
        Want::Done,
        Want::Bytes(FRAME),
        Want::No(6),
        Want::No(4),
        Want::No(5),
    ];
    let mut expects = Expects {
        wants: &wants,
        met: true,
    };
    let mut values = [LeastValues::empty(); VALUES];
    let mut memory = [0; MEMORY];
    let ran = run(
        &mut Network::new(),
        &mut values,
        &mut memory,
        VALUES,
        &example(),
        &mut expects,
    );
    assert!(rt; ran.is_ok() && expects.met && expects.wants.is_empty());
}

#[test]
fn keeps_answers(rt: HostRuntime) -> Result<(), Fail> {
    let mut heard = Answers::new(rt.alloc());
    let mut values: Vec<LeastValues> = empty_values(rt.alloc(), VALUES)?;
    let mut memory = [0; MEMORY];
    run_until(
        &mut Network::new(),
        values.as_mut_slice(),
        &mut memory,
        VALUES,
        &example(),
        &mut heard,
    )?;
    assert_eq!(rt; heard.answers.len(), 8);
    assert!(rt;
        matches!(&heard.answers[4], OwnedAnswer::Bytes(bytes) if bytes.as_slice() == FRAME)
    );
    Ok(())
}
