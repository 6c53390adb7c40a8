// How many turns were accepted and refused.
use diffusion::answer::Answer;
use diffusion::listener::Listener;
use std::convert::Infallible;
use std::fmt;

// The greatest number of a refusal; the least is 1.
const NUMBERS: usize = 14;

#[derive(Clone, Copy)]
pub(crate) struct Counts {
    accepted: u64,
    // how many were refused with each number
    refused: [u64; NUMBERS],
    // the sum of all bytes that were read
    sum: u64,
}

impl Counts {
    pub(crate) fn new() -> Counts {
        Counts {
            accepted: 0,
            refused: [0; NUMBERS],
            sum: 0,
        }
    }
}

// It counts every answer, and keeps none.
impl Listener for Counts {
    type Error = Infallible;

    ghost hears = { λ _ _ _. Unit {0} };

    ghost stops = { λ _ _ _. ⊥ };

    fn hear(&mut self, answer: Answer<'_>) -> Result<(), Infallible> {
        match answer {
            Answer::Done => self.accepted = self.accepted.saturating_add(1),
            Answer::Bytes(bytes) => {
                self.accepted = self.accepted.saturating_add(1);
                for byte in bytes {
                    self.sum = self.sum.saturating_add(u64::from(*byte));
                }
            }
            Answer::Refused(fault) => {
                let place = usize::from(fault.number()).wrapping_sub(1);
                if let Some(count) = self.refused.get_mut(place) {
                    *count = count.saturating_add(1);
                }
            }
        }
        Ok(())
    }
}

impl fmt::Display for Counts {
    fn fmt<W: fmt::Write>(&self, f: &mut fmt::Formatter<W>) -> fmt::Result {
        let (accepted, sum) = (self.accepted, self.sum);
        write!(f, "{accepted},")?;
        for count in &self.refused {
            write!(f, "{count},")?;
        }
        write!(f, "{sum}")
    }
}
