ghost use Rattle.std.specs.Prelude.{◌≡◌, Some};
ghost use Rattle.script.specs.Faults.{line_number, line_text, reason_number, reason_at, reason_text, fault_text, of_line, of_network};
ghost use Rattle.network.specs.Faults.{fault_at};

use network::fault::NetworkFault;
use std::error::Error;
use std::fmt;

/// Why a line is refused before any call is made.
#[derive(Clone, Copy, PartialEq, Eq, Debug)]
pub enum LineFault {
    /// No letter of a call opens the line.
    Letter = 20,
    /// The fields are not of the form that the letter asks for, or no kind has that letter.
    Form = 21,
    /// A number is too great for its place.
    Great = 22,
    /// Nothing is open, or something is open already.
    Stage = 23,
    /// The open kind has no page.
    Page = 24,
}

impl LineFault {
    /// The number of the refusal, 20 to 24.
    pub fn number(self) -> u8
        ensures { result ≡ line_number self }
    {
        self as u8
    }
}

impl fmt::Display for LineFault {
    ghost output = { λ e. Some (line_text e) };

    fn fmt<W: fmt::Write>(&self, f: &mut fmt::Formatter<W>) -> fmt::Result {
        write!(f, "refused with {}", self.number())
    }
}

impl Error for LineFault {}

/// Why a line of a script is refused: by itself, or by the call that it asks for.
#[derive(Clone, Copy, PartialEq, Eq, Debug)]
pub enum ScriptReason {
    /// The line asks for no call.
    Line(LineFault),
    /// The network refuses the call, with its fault carried whole.
    Network(NetworkFault),
}

impl ScriptReason {
    /// The number of the refusal: the line's own, or that of the network.
    pub fn number(self) -> u8
        ensures { result ≡ reason_number self }
    {
        match self {
            ScriptReason::Line(fault) => fault.number(),
            ScriptReason::Network(fault) => fault.number(),
        }
    }

    /// Of bytes that are no frame, at which of them it shows, and the number of the kind that refused them.
    pub fn at(self) -> Option<(usize, u8)>
        ensures { result ≡ reason_at self }
    {
        match self {
            ScriptReason::Line(_) => None,
            ScriptReason::Network(fault) => place_of(fault),
        }
    }
}

// The same of a network's refusal.
fn place_of(fault: NetworkFault) -> Option<(usize, u8)>
    ensures { result ≡ fault_at fault }
{
    match fault {
        NetworkFault::Synopsis(fault) => Some((fault.place, fault.kind)),
        _ => None,
    }
}

impl fmt::Display for ScriptReason {
    ghost output = { λ e. Some (reason_text e) };

    fn fmt<W: fmt::Write>(&self, f: &mut fmt::Formatter<W>) -> fmt::Result {
        let number = self.number();
        match self.at() {
            Some((place, kind)) => write!(f, "no {number} {place} {kind}"),
            None => write!(f, "no {number}"),
        }
    }
}

impl Error for ScriptReason {}

impl From<LineFault> for ScriptReason {
    ghost from_gives = { λ e r. r ≡ of_line e };

    fn from(e: LineFault) -> ScriptReason {
        ScriptReason::Line(e)
    }
}

impl From<NetworkFault> for ScriptReason {
    ghost from_gives = { λ e r. r ≡ of_network e };

    fn from(e: NetworkFault) -> ScriptReason {
        ScriptReason::Network(e)
    }
}

/// The refusal of one line of a script.
#[derive(Clone, Copy, PartialEq, Eq, Debug)]
pub struct ScriptFault {
    /// The number of the line; the first line of an input has number 1.
    pub line: u64,
    /// Why the line is refused.
    pub why: ScriptReason,
}

impl ScriptFault {
    /// The number of the refusal.
    pub fn number(self) -> u8
        ensures { result ≡ reason_number self.why }
    {
        self.why.number()
    }
}

impl fmt::Display for ScriptFault {
    ghost output = { λ e. Some (fault_text e) };

    fn fmt<W: fmt::Write>(&self, f: &mut fmt::Formatter<W>) -> fmt::Result {
        write!(f, "{} {}", self.line, self.why)
    }
}

impl Error for ScriptFault {}
