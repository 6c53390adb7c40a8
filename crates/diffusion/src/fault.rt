ghost use Rattle.std.specs.Prelude.{◌≡◌};
ghost use Rattle.diffusion.specs.Runs.{of_network};
ghost use Rattle.diffusion.specs.Faults.{run_fault_text};

use network::fault::NetworkFault;
use std::error::Error;
use std::fmt;

/// Why not all turns of a list were made.
#[derive(Clone, Copy, PartialEq, Eq, Debug, Drop)]
pub enum RunFault<E> {
    /// OPEN was refused, and nothing was done
    Refused(NetworkFault),
    /// the listener would hear no more
    Stopped(E),
}

impl<E> From<NetworkFault> for RunFault<E> {
    ghost from_gives = { λ e r. r ≡ of_network e };

    fn from(e: NetworkFault) -> RunFault<E> {
        RunFault::Refused(e)
    }
}

impl<E: fmt::Display> fmt::Display for RunFault<E> {
    ghost output = { run_fault_text E.output };

    fn fmt<W: fmt::Write>(&self, f: &mut fmt::Formatter<W>) -> fmt::Result {
        match self {
            RunFault::Refused(fault) => fault.fmt(f),
            RunFault::Stopped(error) => error.fmt(f),
        }
    }
}

impl<E: Error> Error for RunFault<E> {}
