// What a line is answered, and the line of output that says so.
ghost use Rattle.std.specs.Prelude.{◌≡◌, [], Some, IfSome, OnOk};
ghost use Rattle.diffusion.specs.Turns.{tells};
ghost use Rattle.script.specs.Faults.{reason_text};
ghost use Rattle.session.specs.Answers.{said_tells};
ghost use Rattle.session.specs.Printed.{told_text, line_text};

use arrayvec::ArrayString;
use diffusion::answer::Answer;
use diffusion::listener::Listener;
use script::fault::{LineFault, ScriptFault, ScriptReason};
use std::fmt::{self, Write};
use texts::shown::Pairs;

/// How many bytes a line of output has at most: a number of 64 bits, a space, the pairs of a frame, and byte 10.
pub const LINE: usize = 20 + 1 + 2 * synopsis::kind::LONGEST + 1;

/// What a line is answered.
#[derive(Clone, Copy, PartialEq, Eq, Debug)]
pub enum Said<'a> {
    /// what its call answers
    Told(Answer<'a>),
    /// why the line asks for no call
    Bad(LineFault),
}

impl Said<'_> {
    // Why the line is refused, if it is.
    fn refusal(&self) -> Option<ScriptReason>
        ensures { IfSome result (λ why. told_text (said_tells self.now) ≡ reason_text why) }
    {
        match self {
            Said::Told(Answer::Refused(fault)) => Some(ScriptReason::from(*fault)),
            Said::Told(_) => None,
            Said::Bad(fault) => Some(ScriptReason::from(*fault)),
        }
    }
}

impl fmt::Display for Said<'_> {
    ghost output = { λ s. Some (told_text (said_tells s)) };

    fn fmt<W: fmt::Write>(&self, f: &mut fmt::Formatter<W>) -> fmt::Result {
        match self {
            Said::Told(Answer::Done) => f.write_str("ok"),
            Said::Told(Answer::Bytes(bytes)) => Pairs(bytes).fmt(f),
            Said::Told(Answer::Refused(fault)) => ScriptReason::from(*fault).fmt(f),
            Said::Bad(fault) => ScriptReason::from(*fault).fmt(f),
        }
    }
}

/// A line of output, in fixed room: the number of the line of input that it answers, and its text.
#[derive(Drop)]
pub struct OutputLine {
    /// the number of the line of input that it answers
    pub number: u64,
    /// what it says, with the byte 10 that ends it
    pub text: ArrayString<LINE>,
}

impl OutputLine {
    /// A line that says nothing yet.
    pub fn new(number: u64) -> OutputLine
        ensures number { result.number ≡ number }
        ensures text { result.text.bytes ≡ [] }
    {
        OutputLine {
            number,
            text: ArrayString::new(),
        }
    }

    // Says this and nothing else; an error where the room is too little.
    pub(crate) fn say(&mut self, said: Said<'_>) -> fmt::Result
        ensures number { self.new.number ≡ self.old.number }
        ensures text { OnOk result (self.new.text.bytes ≡ line_text self.old.number (said_tells said.entry)) }
    {
        let number = self.number;
        self.text.clear();
        if let Some(why) = said.refusal() {
            let fault = ScriptFault { line: number, why };
            return write!(self.text, "{fault}\n");
        }
        write!(self.text, "{number} {said}\n")
    }
}

impl Listener for OutputLine {
    type Error = fmt::Error;

    ghost hears = { λ before told after. (after.number ≡ before.number) × (after.text.bytes ≡ line_text before.number told) };

    ghost stops = { λ before told after. after.number ≡ before.number };

    fn hear(&mut self, answer: Answer<'_>) -> fmt::Result {
        self.say(Said::Told(answer))
    }
}
