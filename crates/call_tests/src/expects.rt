// The answers that turns should give, and a listener that compares them as it hears them. It allocates nothing.
use diffusion::answer::Answer;
use diffusion::listener::Listener;
use std::convert::Infallible;

#[derive(Clone, Copy)]
pub(crate) enum Want {
    Done,
    Bytes(&'static [u8]),
    // the number of the refusal
    No(u8),
}

// The answers still to come, and whether all before them were right.
#[derive(Clone, Copy)]
pub(crate) struct Expects<'a> {
    pub(crate) wants: &'a [Want],
    pub(crate) met: bool,
}

impl Listener for Expects<'_> {
    type Error = Infallible;

    ghost hears = { λ _ _ _. Unit {0} };

    ghost stops = { λ _ _ _. ⊥ };

    fn hear(&mut self, answer: Answer<'_>) -> Result<(), Infallible> {
        let Some((want, rest)) = self.wants.split_first() else {
            self.met = false;
            return Ok(());
        };
        let same = match (answer, want) {
            (Answer::Done, Want::Done) => true,
            (Answer::Bytes(bytes), Want::Bytes(wanted)) => bytes == *wanted,
            (Answer::Refused(fault), Want::No(number)) => fault.number() == *number,
            _ => false,
        };
        self.met = self.met && same;
        self.wants = rest;
        Ok(())
    }
}
