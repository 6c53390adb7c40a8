ghost use Rattle.std.specs.Prelude.{◌≡◌, ◌≤◌, true, false, [], map, length, take, MatchOption};
ghost use Rattle.runs.specs.Runs.{rising};

use crate::element::Element;
use crate::run::fall_noting;

/// Elements beside their keys, each of which was worked out once.
#[derive(Drop)]
pub struct Keyed<'a, E: Element> {
    /// the elements
    pub items: &'a [E],
    /// the key of each
    pub keys: &'a [u64],
    ghost right: { keys.now ≡ map E.Element.key items.now },
}

impl<'a, E: Element> Keyed<'a, E> {
    /// No elements.
    pub fn none() -> Keyed<'a, E>
        ensures { result.items.now ≡ [] }
    {
        Keyed {
            items: &[],
            keys: &[],
        }
    }

    /// The run that some elements are, with their keys, for which room is lent; none where they are no run, or the room is too
    /// short.
    pub fn of(items: &'a [E], room: &'a mut [u64]) -> Option<Keyed<'a, E>>
        ensures { MatchOption result (length items.now ≤ length room.old → rising E.Ord.cmp items.now ≡ false) (λ run. (rising E.Ord.cmp items.now ≡ true) × (run.items.now ≡ items.now)) }
    {
        if room.len() < items.len() {
            return None;
        }
        let noted = &mut room[0..items.len()];
        if fall_noting(items, noted).is_some() {
            return None;
        }
        let keys = E::keys(items, noted);
        Some(Keyed { items, keys })
    }

    /// The first elements, so many or all.
    pub fn first(&self, count: usize) -> Keyed<'a, E>
        ensures { result.items.now ≡ take count self.now.items.now }
    {
        let end = count.min(self.items.len());
        Keyed {
            items: &self.items[0..end],
            keys: &self.keys[0..end],
        }
    }
}
