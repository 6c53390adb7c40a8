// What a line of a script asks for.
ghost use Rattle.std.specs.Prelude.{◌≡◌, ℕ, List};
ghost use Rattle.script.specs.Spelling.{ReadsBack};
ghost use Rattle.script.specs.Asking.{kind_of, fields_of, fields_now, opening, calling, seen_ask, ask_of, shown, asked_open, asked_generate, asked_arrive, asked_send, asked_deliver, asked_drop, asked_read, asked_usage, asked, room_after};

use crate::digits::{index, long, number, short};
use crate::fault::LineFault;
use crate::field::{four, one, two};
use crate::pairs::{ROOM, are_pairs, write_pairs};
use histories::Call;
use readings::Reading;

/// The kinds that a script may open.
#[derive(Clone, Copy, PartialEq, Eq, Debug)]
pub enum KindLetter {
    /// Bitmaps, by the letter b.
    Bitmaps,
    /// Least values, by the letter v.
    LeastValues,
    /// A sample, by the letter s.
    Sample,
    /// The standard pile, by the letter p.
    Pile,
}

/// How far a script is when a line comes.
#[derive(Clone, Copy, PartialEq, Eq, Debug)]
pub enum Stage {
    /// No line has opened a network yet.
    Closed,
    /// A network is open, of a kind that has a page or of one that has none.
    Open { pages: bool },
}

/// What a line asks for, the bytes of a frame apart, which stand at the front of a room.
#[derive(Clone, Copy, PartialEq, Eq, Debug)]
pub enum Request {
    /// To open a network of so many nodes.
    Open { kind: KindLetter, nodes: usize },
    /// A call of the open network, and no arrival.
    Call(Call<'static>),
    /// The arrival at a node of the first `count` bytes of the room.
    Arrive { node: usize, count: usize },
    /// The usage page of a node.
    Usage { node: usize },
}

/// What a line asks for.
#[derive(Clone, Copy, PartialEq, Eq, Debug)]
pub enum Ask<'a> {
    /// To open a network of so many nodes.
    Open { kind: KindLetter, nodes: usize },
    /// A call of the open network.
    Call(Call<'a>),
    /// The usage page of a node.
    Usage { node: usize },
}

impl Request {
    /// The request with the frame of an arrival lent from the front of a room: all of the room where it is too short.
    pub fn ask(self, room: &[u8; ROOM]) -> Ask<'_>
        ensures { seen_ask result ≡ ask_of self room.now }
    {
        match self {
            Request::Open { kind, nodes } => Ask::Open { kind, nodes },
            Request::Call(call) => Ask::Call(call),
            Request::Arrive { node, count } => {
                let frame = &room[..count.min(ROOM)];
                Ask::Call(Call::Arrive { node, frame })
            }
            Request::Usage { node } => Ask::Usage { node },
        }
    }
}

// The kind that a field names by its letter.
fn kind_of(field: &[u8]) -> Result<KindLetter, LineFault>
    ensures { result ≡ kind_of field.now }
{
    let [letter] = field else {
        return Err(LineFault::Form);
    };
    match char::from(*letter) {
        'b' => Ok(KindLetter::Bitmaps),
        'v' => Ok(KindLetter::LeastValues),
        's' => Ok(KindLetter::Sample),
        'p' => Ok(KindLetter::Pile),
        _ => Err(LineFault::Form),
    }
}

// The text of the fields that come after the letter and a space.
fn fields_of(rest: &[u8]) -> Result<&[u8], LineFault>
    ensures { fields_now result ≡ fields_of rest.now }
{
    match rest {
        [b' ', fields @ ..] => Ok(fields),
        _ => Err(LineFault::Form),
    }
}

// The same, of a line that opens a network: nothing may be open.
fn opening(stage: Stage, rest: &[u8]) -> Result<&[u8], LineFault>
    ensures { fields_now result ≡ opening stage rest.now }
{
    match stage {
        Stage::Closed => fields_of(rest),
        Stage::Open { .. } => Err(LineFault::Stage),
    }
}

// The same, of a line that calls a network: one must be open.
fn calling(stage: Stage, rest: &[u8]) -> Result<&[u8], LineFault>
    ensures { fields_now result ≡ calling stage rest.now }
{
    match stage {
        Stage::Closed => Err(LineFault::Stage),
        Stage::Open { .. } => fields_of(rest),
    }
}

// The opening of a network: its kind, and how many nodes it has.
fn read_open(stage: Stage, rest: &[u8]) -> Result<Request, LineFault>
    ensures asked { (room : List ℕ) → shown result room ≡ asked_open stage rest.now }
    ensures room { (room : List ℕ) → room ≡ room_after (asked_open stage rest.now) room }
{
    let (kind, count) = two(opening(stage, rest)?)?;
    let (kind, count) = (kind_of(kind)?, number(count)?);
    let nodes = index(count)?;
    Ok(Request::Open { kind, nodes })
}

// A reading that a node generates.
fn read_generate(stage: Stage, rest: &[u8]) -> Result<Request, LineFault>
    ensures asked { (room : List ℕ) → shown result room ≡ asked_generate stage rest.now }
    ensures room { (room : List ℕ) → room ≡ room_after (asked_generate stage rest.now) room }
{
    let (node, tenant, item, amount) = four(calling(stage, rest)?)?;
    let (node, tenant) = (number(node)?, number(tenant)?);
    let (item, amount) = (number(item)?, number(amount)?);
    let node = index(node)?;
    let reading = Reading {
        tenant: short(tenant)?,
        item: long(item)?,
        amount: long(amount)?,
    };
    Ok(Request::Call(Call::Generate { node, reading }))
}

// An arrival, whose frame goes to the front of the room.
fn read_arrive(stage: Stage, rest: &[u8], room: &mut [u8; ROOM]) -> Result<Request, LineFault>
    ensures asked { shown result room.new ≡ asked_arrive stage rest.now }
    ensures room { room.new ≡ room_after (asked_arrive stage rest.now) room.old }
{
    let (node, pairs) = two(calling(stage, rest)?)?;
    let node = number(node)?;
    if !are_pairs(pairs) {
        return Err(LineFault::Form);
    }
    let node = index(node)?;
    let count = write_pairs(pairs, room);
    Ok(Request::Arrive { node, count })
}

// A sending into a slot.
fn read_send(stage: Stage, rest: &[u8]) -> Result<Request, LineFault>
    ensures asked { (room : List ℕ) → shown result room ≡ asked_send stage rest.now }
    ensures room { (room : List ℕ) → room ≡ room_after (asked_send stage rest.now) room }
{
    let (node, slot) = two(calling(stage, rest)?)?;
    let (node, slot) = (number(node)?, number(slot)?);
    let (node, slot) = (index(node)?, index(slot)?);
    Ok(Request::Call(Call::Send { node, slot }))
}

// A delivery from a slot.
fn read_deliver(stage: Stage, rest: &[u8]) -> Result<Request, LineFault>
    ensures asked { (room : List ℕ) → shown result room ≡ asked_deliver stage rest.now }
    ensures room { (room : List ℕ) → room ≡ room_after (asked_deliver stage rest.now) room }
{
    let (slot, node) = two(calling(stage, rest)?)?;
    let (slot, node) = (number(slot)?, number(node)?);
    let (slot, node) = (index(slot)?, index(node)?);
    Ok(Request::Call(Call::Deliver { slot, node }))
}

// A slot that is freed.
fn read_drop(stage: Stage, rest: &[u8]) -> Result<Request, LineFault>
    ensures asked { (room : List ℕ) → shown result room ≡ asked_drop stage rest.now }
    ensures room { (room : List ℕ) → room ≡ room_after (asked_drop stage rest.now) room }
{
    let slot = index(number(one(calling(stage, rest)?)?)?)?;
    Ok(Request::Call(Call::Drop { slot }))
}

// A node that is read, with room for any frame.
fn read_read(stage: Stage, rest: &[u8]) -> Result<Request, LineFault>
    ensures asked { (room : List ℕ) → shown result room ≡ asked_read stage rest.now }
    ensures room { (room : List ℕ) → room ≡ room_after (asked_read stage rest.now) room }
{
    let node = index(number(one(calling(stage, rest)?)?)?)?;
    Ok(Request::Call(Call::Read { node, room: ROOM }))
}

// The node of a usage page.
fn read_usage(stage: Stage, rest: &[u8]) -> Result<Request, LineFault>
    ensures asked { (room : List ℕ) → shown result room ≡ asked_usage stage rest.now }
    ensures room { (room : List ℕ) → room ≡ room_after (asked_usage stage rest.now) room }
{
    let node = index(number(one(calling(stage, rest)?)?)?)?;
    match stage {
        Stage::Open { pages: true } => Ok(Request::Usage { node }),
        _ => Err(LineFault::Page),
    }
}

/// What a line asks for at a stage of a script. The bytes of an arrival, 2,048 at most, go to the front of the room, and its other
/// bytes stay; a line that is no arrival, or is refused, leaves the room as it is.
///
/// # Errors
///
/// The first of these that applies: 20, a letter of no call, or none; 23, a letter that does not fit the stage; 21, a wrong form
/// anywhere in the line; 22, a number too great anywhere in it; 24, a page of a kind that has none.
#[tactic(auto, using(crate::proofs::Spelled::reads_back))]
pub fn read_line(line: &[u8], stage: Stage, room: &mut [u8; ROOM]) -> Result<Request, LineFault>
    ensures asked { shown result room.new ≡ asked stage line.now }
    ensures room { room.new ≡ room_after (asked stage line.now) room.old }
    ensures reads_back { ReadsBack }
{
    let [letter, rest @ ..] = line else {
        return Err(LineFault::Letter);
    };
    match char::from(*letter) {
        'o' => read_open(stage, rest),
        'g' => read_generate(stage, rest),
        'a' => read_arrive(stage, rest, room),
        's' => read_send(stage, rest),
        'd' => read_deliver(stage, rest),
        'x' => read_drop(stage, rest),
        'r' => read_read(stage, rest),
        'u' => read_usage(stage, rest),
        _ => Err(LineFault::Letter),
    }
}
