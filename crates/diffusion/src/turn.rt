ghost use Rattle.std.specs.Prelude.{◌≡◌, length};
ghost use Rattle.histories.specs.declared.Call.TheVariants.{Read};
ghost use Rattle.diffusion.specs.Turns.{tells, plainly, state_of, call_tells, call_after, written_by, SameBut};
ghost use Rattle.diffusion.specs.Listening.{HearsOrStops};
ghost use Rattle.diffusion.specs.Runs.{rack, rack_tells, Step};

use crate::answer::Answer;
use crate::listener::Listener;
use histories::{Call, Turn};
use network::fault::NetworkFault;
use network::table::Network;
use synopsis::kind::{LONGEST, Synopsis};

// The answer of a call that gives no bytes.
fn plain<'r>(done: Result<(), NetworkFault>) -> Answer<'r>
    ensures { tells result ≡ plainly done }
{
    match done {
        Ok(()) => Answer::Done,
        Err(fault) => Answer::Refused(fault),
    }
}

// READ: no frame is longer than the room.
fn read_into<'r, S: Synopsis>(
    network: &Network,
    values: &[S],
    memory: &[u8],
    node: usize,
    wanted: usize,
    room: &'r mut [u8; LONGEST],
) -> Answer<'r>
    ensures { tells result ≡ call_tells S.Synopsis.kind (state_of S.Synopsis.kind S.Synopsis.form network.now values.now memory.now) (length values.now) (length memory.now) (Read node wanted) }
{
    let read = network.read(values, memory, node, &mut room[..wanted.min(LONGEST)]);
    match read {
        Ok(length) => Answer::Bytes(&room[..length]),
        Err(fault) => Answer::Refused(fault),
    }
}

// Makes one call with exactly these values and this memory.
fn make_call<'r, S: Synopsis>(
    network: &mut Network,
    values: &mut [S],
    memory: &mut [u8],
    call: &Call<'_>,
    room: &'r mut [u8; LONGEST],
) -> Answer<'r>
    ensures answer { tells result ≡ call_tells S.Synopsis.kind (state_of S.Synopsis.kind S.Synopsis.form network.old values.old memory.old) (length values.old) (length memory.old) call.now }
    ensures after { state_of S.Synopsis.kind S.Synopsis.form network.new values.new memory.new ≡ call_after S.Synopsis.kind (state_of S.Synopsis.kind S.Synopsis.form network.old values.old memory.old) (tells result) call.now }
    ensures others { SameBut (written_by (tells result) call.now) values.old values.new }
{
    plain(match call {
        Call::Generate { node, reading } => network.generate(values, memory, *node, *reading),
        Call::Arrive { node, frame } => network.arrive(values, memory, *node, frame),
        Call::Send { node, slot } => network.send(values, memory, *node, *slot),
        Call::Deliver { slot, node } => network.deliver(values, memory, *slot, *node),
        Call::Drop { slot } => network.drop_slot(values, memory, *slot),
        Call::Read { node, room: wanted } => {
            return read_into(network, values, memory, *node, *wanted, room);
        }
    })
}

// Makes one turn: its call, lent a front part of the values and of the memory. A READ puts its bytes into the room.
pub(crate) fn answer_turn<'r, S: Synopsis>(
    network: &mut Network,
    values: &mut [S],
    memory: &mut [u8],
    turn: &Turn<'_>,
    room: &'r mut [u8; LONGEST],
) -> Answer<'r>
    ensures answer { tells result ≡ rack_tells S.Synopsis.kind S.Synopsis.form (rack network.old values.old memory.old) turn.now }
    ensures step { Step S.Synopsis.kind S.Synopsis.form (rack network.old values.old memory.old) turn.now (rack network.new values.new memory.new) }
{
    let v = turn.values.min(values.len());
    let m = turn.bytes.min(memory.len());
    make_call(
        network,
        &mut values[0..v],
        &mut memory[0..m],
        &turn.call,
        room,
    )
}

/// Makes one turn, and tells its answer: its call is lent a front part of the values and of the memory, as much of them as
/// the turn says. The turn is made whatever the listener answers, whose error is the only one.
pub fn make_turn<S: Synopsis, L: Listener>(
    network: &mut Network,
    values: &mut [S],
    memory: &mut [u8],
    turn: &Turn<'_>,
    listener: &mut L,
) -> Result<(), L::Error>
    ensures step { Step S.Synopsis.kind S.Synopsis.form (rack network.old values.old memory.old) turn.now (rack network.new values.new memory.new) }
    ensures told { HearsOrStops L.hears L.stops result listener.old (rack_tells S.Synopsis.kind S.Synopsis.form (rack network.old values.old memory.old) turn.now) listener.new }
{
    let mut room = [0; LONGEST];
    listener.hear(answer_turn(network, values, memory, turn, &mut room))
}
