ghost use Rattle.std.specs.Prelude.{◌≡◌, ◌≤◌, None, map, length, take, slice_set};
ghost use Rattle.runs.specs.Runs.{first_fall, is_run_row};
ghost use Rattle.std.specs.List.{list_all};

use crate::element::{Element, order_by};

// Notes a key at a place, if there is such a place.
#[inline(always)]
fn note(room: &mut [u64], place: usize, key: u64)
    ensures { room.new ≡ slice_set room.old place key }
{
    if place < room.len() {
        room[place] = key;
    }
}

// Looks for the fall, and notes the keys of a run in room lent for them, as far as it goes. Inlined, so that with no room the
// notes cost nothing.
#[inline(always)]
fn walk<E: Element>(items: &[E], room: &mut [u64]) -> Option<usize>
    ensures fall { result ≡ first_fall E.Ord.cmp items.now }
    ensures keys { result ≡ None → length items.now ≤ length room.old → take (length items.now) room.new ≡ map E.Element.key items.now }
{
    let (mut last, rest) = items.split_first()?;
    let mut key = last.key();
    note(room, 0, key);
    for (i, x) in rest.iter().enumerate() {
        let next = x.key();
        if next <= key && order_by(*last, key, *x, next).is_ge() {
            return Some(i + 1);
        }
        note(room, i + 1, next);
        last = x;
        key = next;
    }
    None
}

// As `fall`; it also notes the keys of a run in room lent for them, if that is long enough.
pub(crate) fn fall_noting<E: Element>(items: &[E], room: &mut [u64]) -> Option<usize>
    ensures fall { result ≡ first_fall E.Ord.cmp items.now }
    ensures keys { result ≡ None → length items.now ≤ length room.old → take (length items.now) room.new ≡ map E.Element.key items.now }
{
    walk(items, room)
}

/// The place of the first element that is not greater than its predecessor; none in a run.
pub fn fall<E: Element>(items: &[E]) -> Option<usize>
    ensures { result ≡ first_fall E.Ord.cmp items.now }
{
    walk(items, &mut [])
}

/// Whether every place is as an unused one.
pub fn all_blank<E: Element>(items: &[E]) -> bool
    ensures { result ≡ list_all E.Element.blank items.now }
{
    // No early end, so that many places are tested at once.
    let mut all = true;
    for x in items {
        all &= x.is_blank();
    }
    all
}

/// The check of a plain row: whether its first `count` places are a run, and the others are unused.
pub fn is_run_row<E: Element>(count: usize, places: &[E]) -> bool
    ensures { result ≡ is_run_row E.Ord.cmp E.Element.blank count places.now }
{
    let Some((front, rest)) = places.split_at_checked(count) else {
        return false;
    };
    fall(front).is_none() && all_blank(rest)
}
