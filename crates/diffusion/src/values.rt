ghost use Rattle.std.specs.Prelude.{◌≡◌, map, replicate, IfOk};

use std::alloc::{AllocError, Global};
use synopsis::kind::Synopsis;

/// A vector with an empty value for each of this many nodes; an error where memory runs out.
pub fn empty_values<S: Synopsis>(heap: Global, nodes: usize) -> Result<Vec<S>, AllocError>
    ensures { IfOk result (λ v. map S.Synopsis.form v.items ≡ replicate nodes S.Synopsis.kind.none) }
{
    (0..nodes).map(|_| S::empty()).collect(heap)
}
