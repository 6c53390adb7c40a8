ghost use Rattle.std.specs.Prelude.{◌≡◌, Some};
ghost use Rattle.usage.specs.Faults.{page_number, page_text};

use std::error::Error;
use std::fmt;

/// Why no page is written.
#[derive(Clone, Copy, PartialEq, Eq, Debug)]
pub enum PageFault {
    /// fewer bytes than the longest page has
    Room = 26,
}

impl PageFault {
    /// The number of the refusal: 26.
    pub fn number(self) -> u8
        ensures { result ≡ page_number self }
    {
        self as u8
    }
}

impl fmt::Display for PageFault {
    ghost output = { λ e. Some (page_text e) };

    fn fmt<W: fmt::Write>(&self, f: &mut fmt::Formatter<W>) -> fmt::Result {
        write!(f, "number {}", self.number())
    }
}

impl Error for PageFault {}
