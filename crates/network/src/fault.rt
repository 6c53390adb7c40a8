ghost use Rattle.std.specs.Prelude.{◌≡◌, Some};
ghost use Rattle.network.specs.Faults.{fault_number, fault_text, of_synopsis, of_encoding};

use std::error::Error;
use std::fmt;
use synopsis::fault::{DecodeFault, EncodeFault};

/// Why a network refuses a call.
#[derive(Clone, Copy, PartialEq, Eq, Debug)]
pub enum NetworkFault {
    /// 1: a node count outside 1 to 16
    NodeCount,
    /// 2: fewer values than nodes, or fewer bytes than the slots have
    TooLittleLent,
    /// 3: the kind has forms too long for any frame
    Overlong,
    /// 4: a node not below the count
    NoNode,
    /// 5: a slot above 31
    NoSlot,
    /// 6: the slot is free
    SlotFree,
    /// 7: the slot is filled
    SlotFilled,
    /// 8: fewer bytes than the encoding
    Room,
    /// 3, or 9 to 14: bytes that are no frame, with the fault of the kind, whole
    Synopsis(DecodeFault),
}

impl NetworkFault {
    /// The number of the refusal, 1 to 14.
    pub fn number(self) -> u8
        ensures { result ≡ fault_number self }
    {
        match self {
            NetworkFault::NodeCount => 1,
            NetworkFault::TooLittleLent => 2,
            NetworkFault::Overlong => 3,
            NetworkFault::NoNode => 4,
            NetworkFault::NoSlot => 5,
            NetworkFault::SlotFree => 6,
            NetworkFault::SlotFilled => 7,
            NetworkFault::Room => 8,
            NetworkFault::Synopsis(fault) => fault.reason.number(),
        }
    }
}

impl fmt::Display for NetworkFault {
    ghost output = { λ e. Some (fault_text e) };

    fn fmt<W: fmt::Write>(&self, f: &mut fmt::Formatter<W>) -> fmt::Result {
        let number = self.number();
        match self {
            NetworkFault::Synopsis(DecodeFault { place, kind, .. }) => {
                write!(f, "refused with {number}, at byte {place}, in kind {kind}")
            }
            _ => write!(f, "refused with {number}"),
        }
    }
}

impl Error for NetworkFault {}

impl From<DecodeFault> for NetworkFault {
    ghost from_gives = { λ e r. r ≡ of_synopsis e };

    fn from(e: DecodeFault) -> NetworkFault {
        NetworkFault::Synopsis(e)
    }
}

impl From<EncodeFault> for NetworkFault {
    ghost from_gives = { λ e r. r ≡ of_encoding e };

    fn from(e: EncodeFault) -> NetworkFault {
        match e {
            EncodeFault::Overlong => NetworkFault::Overlong,
            EncodeFault::Room => NetworkFault::Room,
        }
    }
}
