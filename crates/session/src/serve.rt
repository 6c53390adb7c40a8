// An open network is served line by line.
ghost use Rattle.std.specs.Prelude.{◌≡◌, ℕ, ◌≤◌, length, is_some, Ok, OnOk};
ghost use Rattle.histories.specs.Deeds.{History};
ghost use Rattle.network.specs.Calls.{value_form};
ghost use Rattle.diffusion.specs.Runs.{rack};
ghost use Rattle.script.specs.Asking.{asked, seen_ask};
ghost use Rattle.script.specs.declared.ask.Stage.TheVariants.{Open};
ghost use Rattle.session.specs.Sessions.{After};
ghost use Rattle.session.specs.Owing.{open_owes, open_leaves, usage_tells};
ghost use Rattle.session.specs.Answers.{said_tells};
ghost use Rattle.session.specs.Printed.{line_text};
ghost use Rattle.session.specs.Writing.{Wrote};

use crate::answer::{OutputLine, Said};
use crate::paged::Paged;
use crate::put::put;
use diffusion::answer::Answer;
use diffusion::turn::make_turn;
use histories::Turn;
use network::calls::MEMORY;
use network::fault::NetworkFault;
use network::table::{NODES, Network};
use script::ask::{Ask, Stage, read_line};
use script::fault::LineFault;
use std::fmt;
use std::io::{self, ErrorKind, Write};
use synopsis::kind::LONGEST;

// The page of a node, written into the room.
fn page_of<'a, S: Paged>(
    network: &Network,
    values: &[S],
    node: usize,
    room: &'a mut [u8; LONGEST],
) -> Said<'a>
    requires { network.now.count ≤ length values.now }
    ensures { said_tells result ≡ usage_tells S.Synopsis.kind S.page network.now.count (λ n. value_form S.Synopsis.kind S.Synopsis.form values.now n) node }
{
    if !S::has_page() {
        return Said::Bad(LineFault::Page);
    }
    if node >= network.nodes() {
        return Said::Told(Answer::Refused(NetworkFault::NoNode));
    }
    match values[node].write_page(room) {
        Some(length) => Said::Told(Answer::Bytes(&room[..length])),
        None => Said::Bad(LineFault::Page),
    }
}

// What is said to a line that asks for this. A call is lent all that any network asks for.
fn say_answer<S: Paged>(
    network: &mut Network,
    values: &mut [S],
    memory: &mut [u8],
    ask: Ask<'_>,
    output: &mut OutputLine,
) -> fmt::Result
    ensures { (nodes : ℕ) (h : History) → After S.Synopsis.kind S.Synopsis.form nodes h (rack network.old values.old memory.old)
        → OnOk result (output.new.text.bytes ≡ line_text output.old.number (open_owes S.Synopsis.kind S.page nodes h (Ok (seen_ask ask.entry))))
        × After S.Synopsis.kind S.Synopsis.form nodes (open_leaves S.Synopsis.kind S.page nodes h (Ok (seen_ask ask.entry))) (rack network.new values.new memory.new) }
{
    match ask {
        Ask::Open { .. } => output.say(Said::Bad(LineFault::Stage)),
        Ask::Call(call) => {
            let turn = Turn {
                values: NODES,
                bytes: MEMORY,
                call,
            };
            make_turn(network, values, memory, &turn, output)
        }
        Ask::Usage { node } => {
            if values.len() < network.nodes() {
                return output.say(Said::Told(Answer::Refused(NetworkFault::TooLittleLent)));
            }
            let mut room = [0; LONGEST];
            output.say(page_of(network, values, node, &mut room))
        }
    }
}

// What is said to a line.
fn answer_line<S: Paged>(
    network: &mut Network,
    values: &mut [S],
    memory: &mut [u8],
    line: &[u8],
    room: &mut [u8; LONGEST],
    output: &mut OutputLine,
) -> fmt::Result
    ensures { (nodes : ℕ) (h : History) → After S.Synopsis.kind S.Synopsis.form nodes h (rack network.old values.old memory.old)
        → OnOk result (output.new.text.bytes ≡ line_text output.old.number (open_owes S.Synopsis.kind S.page nodes h (asked (Open (is_some S.page)) line.now)))
        × After S.Synopsis.kind S.Synopsis.form nodes (open_leaves S.Synopsis.kind S.page nodes h (asked (Open (is_some S.page)) line.now)) (rack network.new values.new memory.new) }
{
    let stage = Stage::Open {
        pages: S::has_page(),
    };
    match read_line(line, stage, room) {
        Ok(request) => say_answer(network, values, memory, request.ask(room), output),
        Err(fault) => output.say(Said::Bad(fault)),
    }
}

// Serves one line as `serve_line` does, in room for the line's frame and with an output line that are lent.
pub(crate) fn serve_in<S: Paged, W: Write>(
    network: &mut Network,
    values: &mut [S],
    memory: &mut [u8],
    line: &[u8],
    room: &mut [u8; LONGEST],
    output: &mut OutputLine,
    writer: &mut W,
) -> io::Result<()>
    ensures { (nodes : ℕ) (h : History) → After S.Synopsis.kind S.Synopsis.form nodes h (rack network.old values.old memory.old)
        → Wrote result (W.contents writer.old) (W.contents writer.new) (line_text output.old.number (open_owes S.Synopsis.kind S.page nodes h (asked (Open (is_some S.page)) line.now)))
        × After S.Synopsis.kind S.Synopsis.form nodes (open_leaves S.Synopsis.kind S.page nodes h (asked (Open (is_some S.page)) line.now)) (rack network.new values.new memory.new) }
{
    if answer_line(network, values, memory, line, room, output).is_err() {
        return Err(io::Error::from(ErrorKind::WriteZero));
    }
    put(writer, output.text.as_str().as_bytes())
}

/// Serves one line on an open network: makes the call that it asks for, and writes one line of output with this number. The
/// line comes without the byte 10 that ends it; one that opens a network is answered with 23. After an error a front part of
/// the output line was written; the call is made all the same. The promise is for values and memory that only calls of this
/// network changed since it was opened.
pub fn serve_line<S: Paged, W: Write>(
    network: &mut Network,
    values: &mut [S],
    memory: &mut [u8],
    number: u64,
    line: &[u8],
    writer: &mut W,
) -> io::Result<()>
    ensures { (nodes : ℕ) (h : History) → After S.Synopsis.kind S.Synopsis.form nodes h (rack network.old values.old memory.old)
        → Wrote result (W.contents writer.old) (W.contents writer.new) (line_text number (open_owes S.Synopsis.kind S.page nodes h (asked (Open (is_some S.page)) line.now)))
        × After S.Synopsis.kind S.Synopsis.form nodes (open_leaves S.Synopsis.kind S.page nodes h (asked (Open (is_some S.page)) line.now)) (rack network.new values.new memory.new) }
{
    let mut room = [0; LONGEST];
    let mut output = OutputLine::new(number);
    serve_in(
        network,
        values,
        memory,
        line,
        &mut room,
        &mut output,
        writer,
    )
}
