ghost use Rattle.std.specs.Prelude.{◌≡◌, length, IfOk, IfErr, Ok};
ghost use Rattle.network.specs.Calls.{open_answer};
ghost use Rattle.diffusion.specs.Runs.{rack, opening, Ended, Finished};
ghost use Rattle.diffusion.specs.Promise.{Promise};

use crate::fault::RunFault;
use crate::listener::Listener;
use crate::turn::answer_turn;
use histories::Turn;
use network::fault::NetworkFault;
use network::table::Network;
use std::convert::Infallible;
use synopsis::kind::{LONGEST, Synopsis};

/// Opens a network of so many nodes, whatever it and its values and memory held, makes the turns in their order, and tells
/// each answer to the listener before the next turn is made. It ends early where OPEN is refused, which leaves all as it was,
/// or where the listener stops, and then the last turn that was made is the one whose answer it would not hear.
pub fn run_until<S: Synopsis, L: Listener>(
    network: &mut Network,
    values: &mut [S],
    memory: &mut [u8],
    nodes: usize,
    turns: &[Turn<'_>],
    listener: &mut L,
) -> Result<(), RunFault<L::Error>>
    ensures opens { opening result ≡ open_answer S.Synopsis.kind nodes (length values.old) (length memory.old) }
    ensures refused { IfErr (opening result) (λ _. (network.new ≡ network.old) × (values.new ≡ values.old) × (memory.new ≡ memory.old) × (listener.new ≡ listener.old)) }
    ensures made { IfOk (opening result) (λ _. Ended S.Synopsis.kind S.Synopsis.form L.hears L.stops nodes values.old memory.old turns.now listener.old listener.new (rack network.new values.new memory.new) result) }
    ensures promise { Promise S.Synopsis.kind S.Synopsis.form }
{
    network.open(values, memory, nodes)?;
    let mut room = [0; LONGEST];
    for turn in turns {
        let answer = answer_turn(network, values, memory, turn, &mut room);
        if let Err(stop) = listener.hear(answer) {
            return Err(RunFault::Stopped(stop));
        }
    }
    Ok(())
}

/// The same with a listener that hears all: where OPEN is accepted, every turn is made and gives exactly one answer.
pub fn run<S: Synopsis, L: Listener<Error = Infallible>>(
    network: &mut Network,
    values: &mut [S],
    memory: &mut [u8],
    nodes: usize,
    turns: &[Turn<'_>],
    listener: &mut L,
) -> Result<(), NetworkFault>
    ensures opens { result ≡ open_answer S.Synopsis.kind nodes (length values.old) (length memory.old) }
    ensures refused { IfErr result (λ _. (network.new ≡ network.old) × (values.new ≡ values.old) × (memory.new ≡ memory.old) × (listener.new ≡ listener.old)) }
    ensures made { IfOk result (λ _. Finished S.Synopsis.kind S.Synopsis.form L.hears L.stops nodes values.old memory.old turns.now listener.old listener.new (rack network.new values.new memory.new)) }
    ensures promise { Promise S.Synopsis.kind S.Synopsis.form }
{
    match run_until(network, values, memory, nodes, turns, listener) {
        Ok(()) => Ok(()),
        Err(RunFault::Refused(fault)) => Err(fault),
        Err(RunFault::Stopped(never)) => match never {},
    }
}
