ghost use Rattle.std.specs.Prelude.{◌≡◌, [], ◌∷◌, ◌++◌, map, IfOk};
ghost use Rattle.diffusion.specs.Turns.{tells};
ghost use Rattle.diffusion.specs.Answers.{owned_tells};

use crate::answer::Answer;
use crate::listener::Listener;
use network::fault::NetworkFault;
use std::alloc::{AllocError, Global};

/// An answer with bytes of its own.
#[derive(PartialEq, Eq, Debug, Drop)]
pub enum OwnedAnswer {
    /// the call was done
    Done,
    /// what a READ gave
    Bytes(Vec<u8>),
    /// the call was refused, and nothing was done
    Refused(NetworkFault),
}

impl Answer<'_> {
    /// The same answer, with a copy of its bytes; an error only where memory runs out.
    pub fn to_owned(self, heap: Global) -> Result<OwnedAnswer, AllocError>
        ensures { IfOk result (λ owned. owned_tells owned ≡ tells self.entry) }
    {
        Ok(match self {
            Answer::Done => OwnedAnswer::Done,
            Answer::Bytes(bytes) => OwnedAnswer::Bytes(Vec::from_slice(heap, bytes)?),
            Answer::Refused(fault) => OwnedAnswer::Refused(fault),
        })
    }
}

/// Keeps every answer that it hears, and stops where memory runs out.
#[derive(Drop)]
pub struct Answers {
    /// where the answers get their memory
    pub heap: Global,
    /// the answers so far, the first one first
    pub answers: Vec<OwnedAnswer>,
}

impl Answers {
    /// A listener that has heard nothing yet.
    pub fn new(heap: Global) -> Answers
        ensures { result.answers.items ≡ [] }
    {
        Answers {
            heap,
            answers: Vec::new(heap),
        }
    }
}

impl Listener for Answers {
    type Error = AllocError;

    ghost hears = { λ before told after. map owned_tells after.answers.items ≡ map owned_tells before.answers.items ++ told ∷ [] };

    ghost stops = { λ before told after. after.answers.items ≡ before.answers.items };

    fn hear(&mut self, answer: Answer<'_>) -> Result<(), AllocError> {
        let owned = answer.to_owned(self.heap)?;
        self.answers.push(owned)?;
        Ok(())
    }
}
