ghost use Rattle.std.specs.Prelude.{◌≡◌, ℕ, ◌≤◌, List, Option, IfSome, is_some, option_map, take};

use synopsis::kind::{LONGEST, Synopsis};

/// A kind that a script may open: it says whether its values have a usage page.
pub trait Paged: Synopsis {
    // the page of a value, made of its encoding; none of a kind without pages
    ghost page: { Option (List ℕ → List ℕ) };

    /// Whether the kind has pages.
    fn has_page() -> bool
        ensures { result ≡ is_some page };

    /// Writes the page of the value at the front of the room, and answers its length; nothing in a kind without pages.
    fn write_page(&self, room: &mut [u8; LONGEST]) -> Option<usize>
        ensures bytes { option_map (λ n. take n room.new) result ≡ option_map (λ p. p (Self.kind.encoding (Self.form self.now))) page }
        ensures fits { IfSome result (λ n. n ≤ 2048) };
}
