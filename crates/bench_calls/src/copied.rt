ghost use Rattle.std.specs.Prelude.{◌≡◌};

use bitmaps::maps::Bitmaps;
use layers::pair::Pair;
use least::row::LeastValues;
use sample::row::Sample;
use synopsis::kind::Synopsis;

/// A kind whose values can be copied.
pub trait Copied: Synopsis {
    /// A copy of the value.
    fn copied(&self) -> Self
        ensures { Self.Synopsis.form result ≡ Self.Synopsis.form self.now };
}

impl Copied for Bitmaps {
    fn copied(&self) -> Self {
        *self
    }
}

impl Copied for LeastValues {
    fn copied(&self) -> Self {
        *self
    }
}

impl Copied for Sample {
    fn copied(&self) -> Self {
        *self
    }
}

impl<A: Copied, B: Copied> Copied for Pair<A, B> {
    fn copied(&self) -> Self {
        Pair {
            first: self.first.copied(),
            second: self.second.copied(),
        }
    }
}
