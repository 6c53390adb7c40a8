ghost use Rattle.std.specs.Prelude.{OnOk, OnErr};
ghost use Rattle.diffusion.specs.Turns.{Told, tells};

use crate::answer::Answer;

/// Whoever is told the answers of turns, one by one, as they are made.
pub trait Listener {
    /// Why it would hear no more; `Infallible` where it hears all.
    type Error;

    // what hearing an answer makes of it
    ghost hears: { Self → Told → Self → Type 0 };

    // what it is where it would not hear an answer
    ghost stops: { Self → Told → Self → Type 0 };

    /// Hears one answer more; after an error it is told none.
    fn hear(&mut self, answer: Answer<'_>) -> Result<(), Self::Error>
        ensures heard { OnOk result (hears self.old (tells answer.entry) self.new) }
        ensures stopped { OnErr result (stops self.old (tells answer.entry) self.new) };
}
