ghost use Rattle.std.specs.Prelude.{◌≡◌, ◌<◌, ◌≤◌, T, [], ◌∷◌, ◌++◌, length, take, drop, MatchOption};
ghost use Rattle.runs.specs.Runs.{rising};
ghost use Rattle.runs.specs.Union.{merge, union_of};

use crate::element::Element;

// The place at which an element enters a run of at most `most` elements; none where the run stays as it is.
pub(crate) fn place_for<E: Element>(run: &[E], most: usize, item: E) -> Option<usize>
    requires rises { T (rising E.Ord.cmp run.now) }
    requires few { length run.now ≤ most }
    ensures { MatchOption result (union_of E.Ord.cmp most run.now (item ∷ []) ≡ run.now) (λ at. (at < most) × (at ≤ length run.now) × (merge E.Ord.cmp run.now (item ∷ []) ≡ take at run.now ++ (item ∷ drop at run.now))) }
{
    if run.len() == most
        && let Some(last) = run.last()
        && *last < item
    {
        return None;
    }
    match run.binary_search(&item) {
        Ok(_) => None,
        Err(at) if at < most => Some(at),
        Err(_) => None,
    }
}

// Puts an element at a place of those in use, the first `count`, or right behind them, and answers how many are in use then.
// Those from there on move up by one; where all are in use, the last falls out.
pub(crate) fn put_at<E: Element>(places: &mut [E], count: usize, at: usize, item: E) -> usize
    requires within { at ≤ count }
    requires few { count ≤ length places.old }
    requires place { at < length places.old }
    ensures few { result ≤ length places.old }
    ensures front { take result places.new ≡ take (length places.old) (take at (take count places.old) ++ (item ∷ drop at (take count places.old))) }
    ensures rest { drop result places.new ≡ drop result places.old }
    ensures more { count ≤ result }
{
    let last = count.min(places.len() - 1);
    places.copy_within(at..last, at + 1);
    places[at] = item;
    last + 1
}
