// Turns of a network of seven nodes, told by words.
ghost use Rattle.std.specs.Prelude.{◌≡◌, length};
ghost use Rattle.network.specs.Calls.{open_answer};
ghost use Rattle.diffusion.specs.Turns.{state_of, call_tells, call_after};
ghost use Rattle.bench_calls.specs.Turns.{act_of, task_of, call_by, weight, weight_of, room_after, ended};

use crate::counting::reading_of;
use crate::values::frame_at;
use network::fault::NetworkFault;
use network::table::Network;
use synopsis::kind::Synopsis;

/// How many nodes the network has.
pub(crate) const NODES: usize = 7;

// What a word asks for.
#[derive(Clone, Copy)]
enum Act {
    Count,
    Arrive,
    Send,
    Deliver,
    Free,
    Read,
}

// The same with its places.
#[derive(Clone, Copy)]
struct Task {
    act: Act,
    node: usize,
    slot: usize,
    number: u64,
}

// What the lowest four bits of a word ask for.
fn act_of(n: u64) -> Act
    ensures { result ≡ act_of n }
{
    if n < 2 {
        Act::Count
    } else if n < 3 {
        Act::Arrive
    } else if n < 7 {
        Act::Send
    } else if n < 11 {
        Act::Deliver
    } else if n < 14 {
        Act::Free
    } else {
        Act::Read
    }
}

// What a word asks for, and where.
fn task_of(word: u64) -> Task
    ensures { result ≡ task_of word }
{
    Task {
        act: act_of(word % 16),
        node: (word / 16 % 8) as usize,
        slot: (word / 128 % 64) as usize,
        number: word / 8192,
    }
}

// What an answer adds to the sum of answers.
fn weight(done: Result<(), NetworkFault>) -> u64
    ensures { result ≡ weight_of done }
{
    match done {
        Ok(()) => 0,
        Err(fault) => u64::from(fault.number()),
    }
}

// Makes the call of a task; what its answer adds.
fn make<S: Synopsis>(
    network: &mut Network,
    values: &mut [S],
    memory: &mut [u8],
    room: &mut [u8],
    frames: &[u8],
    size: usize,
    task: Task,
) -> u64
    ensures answer { result ≡ weight (call_tells S.Synopsis.kind (state_of S.Synopsis.kind S.Synopsis.form network.old values.old memory.old) (length values.old) (length memory.old) (call_by (length room.old) size frames.now task task.act)) }
    ensures after { state_of S.Synopsis.kind S.Synopsis.form network.new values.new memory.new ≡ call_after S.Synopsis.kind (state_of S.Synopsis.kind S.Synopsis.form network.old values.old memory.old) (call_tells S.Synopsis.kind (state_of S.Synopsis.kind S.Synopsis.form network.old values.old memory.old) (length values.old) (length memory.old) (call_by (length room.old) size frames.now task task.act)) (call_by (length room.old) size frames.now task task.act) }
    ensures room { room.new ≡ room_after (call_tells S.Synopsis.kind (state_of S.Synopsis.kind S.Synopsis.form network.old values.old memory.old) (length values.old) (length memory.old) (call_by (length room.old) size frames.now task task.act)) room.old }
{
    let Task {
        act,
        node,
        slot,
        number,
    } = task;
    match act {
        Act::Count => weight(network.generate(values, memory, node, reading_of(number))),
        Act::Arrive => {
            let frame = frame_at(frames, size, (number % 64) as usize);
            weight(network.arrive(values, memory, node, frame))
        }
        Act::Send => weight(network.send(values, memory, node, slot)),
        Act::Deliver => weight(network.deliver(values, memory, slot, node)),
        Act::Free => weight(network.drop_slot(values, memory, slot)),
        Act::Read => match network.read(values, memory, node, room) {
            Ok(length) => length as u64,
            Err(fault) => u64::from(fault.number()),
        },
    }
}

// Opens a network, and makes the turns; the sum of their answers.
pub(crate) fn run<S: Synopsis>(
    values: &mut [S],
    words: &[u64],
    frames: &[u8],
    size: usize,
    memory: &mut [u8],
    room: &mut [u8],
) -> u64
    requires { length values.old ≡ 7 }
    ensures answer { result ≡ (ended S.Synopsis.kind size frames.now words.now memory.old room.old (open_answer S.Synopsis.kind 7 7 (length memory.old))).sum }
    ensures memory { memory.new ≡ (ended S.Synopsis.kind size frames.now words.now memory.old room.old (open_answer S.Synopsis.kind 7 7 (length memory.old))).state.memory }
    ensures room { room.new ≡ (ended S.Synopsis.kind size frames.now words.now memory.old room.old (open_answer S.Synopsis.kind 7 7 (length memory.old))).room }
{
    let mut network = Network::new();
    if let Err(fault) = network.open(values, memory, NODES) {
        return u64::from(fault.number());
    }
    let mut sum: u64 = 0;
    for word in words {
        let told = make(
            &mut network,
            values,
            memory,
            room,
            frames,
            size,
            task_of(*word),
        );
        sum = sum.wrapping_mul(31).wrapping_add(told);
    }
    sum
}
