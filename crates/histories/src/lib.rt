// Turns: calls that a network is asked to make, with their arguments.
#![tactic(auto)]

use readings::Reading;

/// One call of a network, OPEN apart.
#[derive(Clone, Copy, PartialEq, Eq, Debug)]
pub enum Call<'a> {
    /// a reading is counted at a node
    Generate { node: usize, reading: Reading },
    /// bytes from outside reach a node
    Arrive { node: usize, frame: &'a [u8] },
    /// a node's value is encoded into a free slot
    Send { node: usize, slot: usize },
    /// what a slot holds reaches a node
    Deliver { slot: usize, node: usize },
    /// a slot is freed
    Drop { slot: usize },
    /// a node's encoding is read into a room with this many bytes
    Read { node: usize, room: usize },
}

/// A turn: a call, and how much it is lent of the values and of the memory.
#[derive(Clone, Copy, PartialEq, Eq, Debug)]
pub struct Turn<'a> {
    /// how many values, from the front; all where there are fewer
    pub values: usize,
    /// how many bytes of memory, from the front; all where there are fewer
    pub bytes: usize,
    /// the call that is made with them
    pub call: Call<'a>,
}
