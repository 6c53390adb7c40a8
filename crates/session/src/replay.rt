// A whole script is replayed.
ghost use Rattle.std.specs.Prelude.{◌≡◌, ℕ, ◌+◌, ◌^◌, ◌<◌, ◌≤◌, List, [], ◌∷◌, cond, length, Ok};
ghost use Rattle.diffusion.specs.Turns.{Told, is_accepted};
ghost use Rattle.diffusion.specs.Runs.{rack};
ghost use Rattle.script.specs.Asking.{ask_of};
ghost use Rattle.script.specs.Lines.{lines};
ghost use Rattle.session.specs.Sessions.{After};
ghost use Rattle.session.specs.Owing.{opens, open_answers, line_refusal};
ghost use Rattle.session.specs.Standing.{kind_of_letter, page_of_letter, closed, ask_owes, ask_leaves, answers};
ghost use Rattle.session.specs.Answers.{said_tells};
ghost use Rattle.session.specs.Printed.{line_text, printed_from, printed};
ghost use Rattle.session.specs.Scripts.{ScriptLaws};
ghost use Rattle.session.specs.Writing.{Wrote, WroteAllBut};

use crate::answer::{OutputLine, Said};
use crate::paged::Paged;
use crate::put::put;
use crate::serve::serve_in;
use bitmaps::maps::Bitmaps;
use diffusion::answer::Answer;
use least::row::LeastValues;
use network::calls::MEMORY;
use network::table::{NODES, Network};
use sample::row::Sample;
use script::ask::{KindLetter, Request, Stage, read_line};
use script::fault::LineFault;
use script::line::first_line;
use std::array;
use std::io::{self, ErrorKind, Write};
use synopsis::kind::{LONGEST, Synopsis};
use usage::pile::StandardPile;

/// How many bytes an input has at most.
pub const LONGEST_INPUT: usize = 65_536;

// Writes one line of output.
fn put_line<W: Write>(writer: &mut W, number: u64, said: Said<'_>) -> io::Result<()>
    ensures { Wrote result (W.contents writer.old) (W.contents writer.new) (line_text number (said_tells said.entry)) }
{
    let mut output = OutputLine::new(number);
    if output.say(said).is_err() {
        return Err(io::Error::from(ErrorKind::WriteZero));
    }
    put(writer, output.text.as_str().as_bytes())
}

// Serves the lines that follow an accepted OPEN.
fn play<S: Paged, W: Write>(
    network: &mut Network,
    values: &mut [S],
    memory: &mut [u8],
    first: u64,
    input: &[u8],
    writer: &mut W,
) -> io::Result<()>
    requires { first + length input.now < 2 ^ 64 }
    ensures { (nodes : ℕ) → After S.Synopsis.kind S.Synopsis.form nodes [] (rack network.old values.old memory.old) → Wrote result (W.contents writer.old) (W.contents writer.new) (printed_from first (open_answers S.Synopsis.kind S.page nodes [] (lines input.now))) }
{
    let mut room = [0; LONGEST];
    let mut output = OutputLine::new(first);
    let mut number = first;
    let mut rest = input;
    while let Some((line, after)) = first_line(rest) {
        output.number = number;
        serve_in(
            network,
            values,
            memory,
            line,
            &mut room,
            &mut output,
            writer,
        )?;
        number += 1;
        rest = after;
    }
    Ok(())
}

// Opens a network of a kind, and serves the lines that follow if it was opened; whether it was.
fn open<S: Paged, W: Write>(
    values: &mut [S],
    memory: &mut [u8],
    nodes: usize,
    number: u64,
    left: &[u8],
    writer: &mut W,
) -> io::Result<bool>
    requires nodes { length values.old ≡ 16 }
    requires slots { length memory.old ≡ 65536 }
    requires few { number + 1 + length left.now < 2 ^ 64 }
    ensures { WroteAllBut result (W.contents writer.old) (W.contents writer.new) (λ went. printed_from (number + 1) (cond went [] (answers closed (lines left.now)))) (printed_from number (opens S.Synopsis.kind nodes ∷ cond (is_accepted (opens S.Synopsis.kind nodes)) (open_answers S.Synopsis.kind S.page nodes [] (lines left.now)) (answers closed (lines left.now)))) }
{
    let mut network = Network::new();
    match network.open(values, memory, nodes) {
        Ok(()) => {
            put_line(writer, number, Said::Told(Answer::Done))?;
            play(&mut network, values, memory, number + 1, left, writer)?;
            Ok(true)
        }
        Err(fault) => {
            put_line(writer, number, Said::Told(Answer::Refused(fault)))?;
            Ok(false)
        }
    }
}

// Opens a network of the kind of a letter.
fn open_by_letter<W: Write>(
    letter: KindLetter,
    memory: &mut [u8],
    nodes: usize,
    number: u64,
    left: &[u8],
    writer: &mut W,
) -> io::Result<bool>
    requires slots { length memory.old ≡ 65536 }
    requires few { number + 1 + length left.now < 2 ^ 64 }
    ensures { WroteAllBut result (W.contents writer.old) (W.contents writer.new) (λ went. printed_from (number + 1) (cond went [] (answers closed (lines left.now)))) (printed_from number (opens (kind_of_letter letter) nodes ∷ cond (is_accepted (opens (kind_of_letter letter) nodes)) (open_answers (kind_of_letter letter) (page_of_letter letter) nodes [] (lines left.now)) (answers closed (lines left.now)))) }
{
    match letter {
        KindLetter::Bitmaps => {
            let mut values: [Bitmaps; NODES] = array::from_fn(|_| Bitmaps::empty());
            open(&mut values, memory, nodes, number, left, writer)
        }
        KindLetter::LeastValues => {
            let mut values: [LeastValues; NODES] = array::from_fn(|_| LeastValues::empty());
            open(&mut values, memory, nodes, number, left, writer)
        }
        KindLetter::Sample => {
            let mut values: [Sample; NODES] = array::from_fn(|_| Sample::empty());
            open(&mut values, memory, nodes, number, left, writer)
        }
        KindLetter::Pile => {
            let mut values: [StandardPile; NODES] = array::from_fn(|_| StandardPile::empty());
            open(&mut values, memory, nodes, number, left, writer)
        }
    }
}

// Refuses a line where nothing is open.
fn refuse<W: Write>(writer: &mut W, number: u64, fault: LineFault) -> io::Result<bool>
    ensures { (others : List Told) → WroteAllBut result (W.contents writer.old) (W.contents writer.new) (λ went. printed_from (number + 1) (cond went [] others)) (printed_from number (line_refusal fault ∷ others)) }
{
    put_line(writer, number, Said::Bad(fault))?;
    Ok(false)
}

// Answers a request where nothing is open, and all lines after it if it opens a network; whether it does.
fn serve_request<W: Write>(
    memory: &mut [u8],
    number: u64,
    request: Request,
    left: &[u8],
    writer: &mut W,
) -> io::Result<bool>
    requires slots { length memory.old ≡ 65536 }
    requires few { number + 1 + length left.now < 2 ^ 64 }
    ensures { (room : List ℕ) → WroteAllBut result (W.contents writer.old) (W.contents writer.new) (λ went. printed_from (number + 1) (cond went [] (answers closed (lines left.now)))) (printed_from number (ask_owes closed (Ok (ask_of request room)) ∷ answers (ask_leaves closed (Ok (ask_of request room))) (lines left.now))) }
{
    match request {
        Request::Open { kind, nodes } => open_by_letter(kind, memory, nodes, number, left, writer),
        Request::Call(_) => refuse(writer, number, LineFault::Stage),
        Request::Arrive { .. } => refuse(writer, number, LineFault::Stage),
        Request::Usage { .. } => refuse(writer, number, LineFault::Stage),
    }
}

// The same of a line.
fn serve_closed<W: Write>(
    memory: &mut [u8],
    number: u64,
    line: &[u8],
    left: &[u8],
    writer: &mut W,
) -> io::Result<bool>
    requires slots { length memory.old ≡ 65536 }
    requires few { number + 1 + length left.now < 2 ^ 64 }
    ensures { WroteAllBut result (W.contents writer.old) (W.contents writer.new) (λ went. printed_from (number + 1) (cond went [] (answers closed (lines left.now)))) (printed_from number (answers closed (line.now ∷ lines left.now))) }
{
    let mut room = [0; LONGEST];
    match read_line(line, Stage::Closed, &mut room) {
        Ok(request) => serve_request(memory, number, request, left, writer),
        Err(fault) => refuse(writer, number, fault),
    }
}

// Replays lines in memory that the network may use.
fn replay_lines<W: Write>(memory: &mut [u8], input: &[u8], writer: &mut W) -> io::Result<()>
    requires slots { length memory.old ≡ 65536 }
    requires few { length input.now ≤ 65536 }
    ensures { Wrote result (W.contents writer.old) (W.contents writer.new) (printed_from 1 (answers closed (lines input.now))) }
{
    let mut number = 1;
    let mut rest = input;
    while let Some((line, left)) = first_line(rest) {
        let went = serve_closed(memory, number, line, left, writer)?;
        if went {
            return Ok(());
        }
        number += 1;
        rest = left;
    }
    Ok(())
}

/// Replays a script: writes what is printed for these bytes, or after an error of the writer a front part of it. For more than
/// 65,536 bytes that is `0 no 25` alone.
pub fn replay_script<W: Write>(input: &[u8], writer: &mut W) -> io::Result<()>
    ensures { Wrote result (W.contents writer.old) (W.contents writer.new) (printed input.now) }
{
    if input.len() > LONGEST_INPUT {
        return put(writer, b"0 no 25\n");
    }
    let mut memory = [0; MEMORY];
    replay_lines(&mut memory, input, writer)
}
