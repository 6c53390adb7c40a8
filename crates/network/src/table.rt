use crate::slot::Filled;
use std::marker::Model;

/// How many nodes a network has at most.
pub const NODES: usize = 16;

/// How many slots a network has.
pub const SLOTS: usize = 32;

/// What a network knows of itself: how many nodes it has, none until it is opened, and what lies in each slot that is
/// filled. Values and memory are the caller's. Nodes that pass synopses to each other over any routes are synopsis diffusion
/// (Nath, Gibbons, Seshan and Anderson 2004).
#[derive(Clone, Copy, PartialEq, Eq, Debug)]
pub struct Network {
    pub(crate) count: usize,
    pub(crate) slots: [Option<Filled>; SLOTS],
}

// A contract sees the table, of at most 16 nodes, and no slot holds more bytes than it has.
impl Model for Network {
    ghost use Rattle.network.specs.Tables.{Table, Keeps};

    ghost Value = { Table };

    ghost view = { λ n. record { count = n.count; slots = n.slots } };

    ghost invariant = { λ n. Keeps n.count n.slots };

    ghost inverse = { λ t. record { count = t.count; slots = t.slots } };
}
