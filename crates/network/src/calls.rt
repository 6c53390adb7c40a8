ghost use Rattle.std.specs.Prelude.{◌≡◌, ◌<◌, ◌≤◌, false, ◌++◌, length, drop, None, Ok, IfOk, MatchResult, nat_le, slice_index_or};
ghost use Rattle.network.specs.Calls.{opened_network, slot_of, switched, value_form, value_frame, placed, slot_start, slot_frame, no_slot, unless, with_enough_lent, generate_answer, arrive_answer, send_answer, deliver_answer, drop_answer, read_answer, open_answer, Fused, Joined, Emptied};
ghost use Rattle.synopsis.specs.Kind.{overlong};

use crate::fault::NetworkFault;
use crate::slot::Filled;
use crate::table::{NODES, Network, SLOTS};
use readings::Reading;
use synopsis::kind::{LONGEST, Synopsis};

/// How many bytes a slot has, room for any frame.
pub const SLOT: usize = LONGEST;

/// How many bytes of memory a network asks for: 65,536. Slot s begins at byte `SLOT * s`.
pub const MEMORY: usize = SLOTS * SLOT;

// What every call refuses before it looks at its node and slot, where there are or are to be so many nodes.
fn check_lent<S: Synopsis>(nodes: usize, values: &[S], memory: &[u8]) -> Result<(), NetworkFault>
    ensures { result ≡ with_enough_lent S.Synopsis.kind nodes (length values.now) (length memory.now) (Ok tt) }
{
    if values.len() < nodes || memory.len() < MEMORY {
        return Err(NetworkFault::TooLittleLent);
    }
    if S::is_overlong() {
        return Err(NetworkFault::Overlong);
    }
    Ok(())
}

// That there is such a slot.
fn check_slot(slot: usize) -> Result<(), NetworkFault>
    ensures answer { result ≡ unless (nat_le SLOTS slot) 5 (Ok tt) }
    ensures within { IfOk result (λ _. slot < SLOTS) }
{
    if slot >= SLOTS {
        return Err(NetworkFault::NoSlot);
    }
    Ok(())
}

// Fuses another value into one of the values.
fn fuse_at<S: Synopsis>(values: &mut [S], node: usize, other: &S)
    requires { node < length values.old }
    ensures { Fused S.Synopsis.form values.old values.new node (S.Synopsis.kind.join (value_form S.Synopsis.kind S.Synopsis.form values.old node) (S.Synopsis.form other.now)) }
{
    values[node].fuse(other);
}

// Adds a reading to one of the values.
fn add_at<S: Synopsis>(values: &mut [S], node: usize, reading: Reading)
    requires { node < length values.old }
    ensures { Fused S.Synopsis.form values.old values.new node (S.Synopsis.kind.join (value_form S.Synopsis.kind S.Synopsis.form values.old node) (S.Synopsis.kind.single reading)) }
{
    values[node].add(reading);
}

// Makes the first values empty.
fn empty_front<S: Synopsis>(values: &mut [S], nodes: usize)
    requires { nodes ≤ length values.old }
    ensures { Emptied S.Synopsis.form S.Synopsis.kind.none values.old values.new nodes }
{
    for value in &mut values[..nodes] {
        *value = S::empty();
    }
}

// Encodes one of the values into a slot's bytes.
fn encode_at<S: Synopsis>(values: &[S], node: usize, memory: &mut [u8], slot: usize) -> usize
    requires node_within { node < length values.now }
    requires slot_within { slot < SLOTS }
    requires room { MEMORY ≤ length memory.old }
    requires short { overlong S.Synopsis.kind ≡ false }
    ensures answer { result ≡ length (value_frame S.Synopsis.kind S.Synopsis.form values.now node) }
    ensures bytes { memory.new ≡ placed memory.old (slot_start slot) (value_frame S.Synopsis.kind S.Synopsis.form values.now node) }
{
    let at = SLOT * slot;
    values[node].encode(&mut memory[at..at + SLOT]).unwrap()
}

// Switches an entry of the table, lent for it, to filled.
fn fill(entry: &mut Option<Filled>, sender: usize, length: usize)
    ensures { entry.new ≡ slot_of sender length }
{
    *entry = Some(Filled { sender, length });
}

// Switches it to free.
fn release(entry: &mut Option<Filled>)
    ensures { entry.new ≡ None }
{
    *entry = None;
}

impl Network {
    /// A network with no nodes: it serves only OPEN.
    pub fn new() -> Network
        ensures { result ≡ opened_network 0 }
    {
        Network {
            count: 0,
            slots: [None; SLOTS],
        }
    }

    /// How many nodes there are: none until it is opened.
    pub fn nodes(&self) -> usize
        ensures { result ≡ self.now.count }
    {
        self.count
    }

    // That there is such a node.
    fn check_node(&self, node: usize) -> Result<(), NetworkFault>
        ensures answer { result ≡ unless (nat_le self.now.count node) 4 (Ok tt) }
        ensures within { IfOk result (λ _. node < self.now.count) }
    {
        if node >= self.count {
            return Err(NetworkFault::NoNode);
        }
        Ok(())
    }

    /// GENERATE: joins a reading into a node's value. It refuses with 2 fewer values than nodes or fewer than `MEMORY` bytes, with 3
    /// an overlong kind, with 4 a node not below the count; then all values stay.
    pub fn generate<S: Synopsis>(
        &self,
        values: &mut [S],
        memory: &[u8],
        node: usize,
        reading: Reading,
    ) -> Result<(), NetworkFault>
        ensures answer { result ≡ generate_answer S.Synopsis.kind self.now (length values.old) (length memory.now) node }
        ensures after { MatchResult result (λ _. Fused S.Synopsis.form values.old values.new node (S.Synopsis.kind.join (value_form S.Synopsis.kind S.Synopsis.form values.old node) (S.Synopsis.kind.single reading))) (λ _. values.new ≡ values.old) }
    {
        check_lent(self.count, values, memory)?;
        self.check_node(node)?;
        add_at(values, node, reading);
        Ok(())
    }

    /// ARRIVE: decodes bytes from outside, and joins what they encode into a node's value. It refuses with 2, 3, 4 as `generate`
    /// does, then with DECODE's fault; then all values stay.
    pub fn arrive<S: Synopsis>(
        &self,
        values: &mut [S],
        memory: &[u8],
        node: usize,
        frame: &[u8],
    ) -> Result<(), NetworkFault>
        ensures answer { result ≡ arrive_answer S.Synopsis.kind self.now (length values.old) (length memory.now) node frame.now }
        ensures after { MatchResult result (λ _. Joined S.Synopsis.kind S.Synopsis.form values.old values.new node frame.now) (λ _. values.new ≡ values.old) }
    {
        check_lent(self.count, values, memory)?;
        self.check_node(node)?;
        let mut heard = S::empty();
        heard.decode(frame)?;
        fuse_at(values, node, &heard);
        Ok(())
    }

    /// SEND: encodes a node's value into a free slot, which becomes filled. It refuses with 2, 3, 4 as `generate` does, then with 5
    /// a slot above 31, with 7 a filled one; then table and memory stay.
    pub fn send<S: Synopsis>(
        &mut self,
        values: &[S],
        memory: &mut [u8],
        node: usize,
        slot: usize,
    ) -> Result<(), NetworkFault>
        ensures answer { result ≡ send_answer S.Synopsis.kind self.old (length values.now) (length memory.old) node slot }
        ensures table { MatchResult result (λ _. self.new ≡ switched self.old slot (slot_of node (length (value_frame S.Synopsis.kind S.Synopsis.form values.now node)))) (λ _. self.new ≡ self.old) }
        ensures bytes { MatchResult result (λ _. memory.new ≡ placed memory.old (slot_start slot) (value_frame S.Synopsis.kind S.Synopsis.form values.now node)) (λ _. memory.new ≡ memory.old) }
    {
        check_lent(self.count, values, memory)?;
        self.check_node(node)?;
        check_slot(slot)?;
        if self.slots[slot].is_some() {
            return Err(NetworkFault::SlotFilled);
        }
        let length = encode_at(values, node, memory, slot);
        fill(&mut self.slots[slot], node, length);
        Ok(())
    }

    /// DELIVER: decodes what a slot holds, and joins it into a node's value; the slot stays filled. It refuses with 2, 3, then with 5
    /// a slot above 31, with 4 a node not below the count, with 6 a free slot, then with DECODE's fault; then all values stay.
    pub fn deliver<S: Synopsis>(
        &self,
        values: &mut [S],
        memory: &[u8],
        slot: usize,
        node: usize,
    ) -> Result<(), NetworkFault>
        ensures answer { result ≡ deliver_answer S.Synopsis.kind self.now (length values.old) (length memory.now) memory.now slot node }
        ensures after { MatchResult result (λ _. Joined S.Synopsis.kind S.Synopsis.form values.old values.new node (slot_frame memory.now slot (slice_index_or self.now.slots slot no_slot))) (λ _. values.new ≡ values.old) }
    {
        check_lent(self.count, values, memory)?;
        check_slot(slot)?;
        self.check_node(node)?;
        let Filled { length, .. } = self.slots[slot].ok_or(NetworkFault::SlotFree)?;
        let at = SLOT * slot;
        let mut heard = S::empty();
        heard.decode(&memory[at..at + length])?;
        fuse_at(values, node, &heard);
        Ok(())
    }

    /// DROP: frees a slot. It refuses with 2, 3, then with 5 a slot above 31, with 6 a free one; then the table stays.
    pub fn drop_slot<S: Synopsis>(
        &mut self,
        values: &[S],
        memory: &[u8],
        slot: usize,
    ) -> Result<(), NetworkFault>
        ensures answer { result ≡ drop_answer S.Synopsis.kind self.old (length values.now) (length memory.now) slot }
        ensures table { MatchResult result (λ _. self.new ≡ switched self.old slot None) (λ _. self.new ≡ self.old) }
    {
        check_lent(self.count, values, memory)?;
        check_slot(slot)?;
        if self.slots[slot].is_none() {
            return Err(NetworkFault::SlotFree);
        }
        release(&mut self.slots[slot]);
        Ok(())
    }

    /// READ: writes a node's encoding at the front of `out`, and answers its length in bytes. It refuses with 2, 3, 4 as `generate`
    /// does, then with 8 fewer bytes than the encoding has; then all bytes stay.
    pub fn read<S: Synopsis>(
        &self,
        values: &[S],
        memory: &[u8],
        node: usize,
        out: &mut [u8],
    ) -> Result<usize, NetworkFault>
        ensures answer { result ≡ read_answer S.Synopsis.kind self.now (length values.now) (length memory.now) node (value_form S.Synopsis.kind S.Synopsis.form values.now node) (length out.old) }
        ensures after { MatchResult result (λ n. out.new ≡ value_frame S.Synopsis.kind S.Synopsis.form values.now node ++ drop n out.old) (λ _. out.new ≡ out.old) }
    {
        check_lent(self.count, values, memory)?;
        self.check_node(node)?;
        Ok(values[node].encode(out)?)
    }

    /// OPEN: makes a network of this many nodes, all empty, with all slots free. It refuses with 1 a count outside 1 to 16, then with
    /// 2 fewer values than that or fewer than `MEMORY` bytes, with 3 an overlong kind; then table and values stay.
    pub fn open<S: Synopsis>(
        &mut self,
        values: &mut [S],
        memory: &[u8],
        nodes: usize,
    ) -> Result<(), NetworkFault>
        ensures answer { result ≡ open_answer S.Synopsis.kind nodes (length values.old) (length memory.now) }
        ensures table { MatchResult result (λ _. self.new ≡ opened_network nodes) (λ _. self.new ≡ self.old) }
        ensures after { MatchResult result (λ _. Emptied S.Synopsis.form S.Synopsis.kind.none values.old values.new nodes) (λ _. values.new ≡ values.old) }
    {
        if nodes < 1 || nodes > NODES {
            return Err(NetworkFault::NodeCount);
        }
        check_lent(nodes, values, memory)?;
        empty_front(values, nodes);
        *self = Network {
            count: nodes,
            ..Network::new()
        };
        Ok(())
    }
}
