ghost use Rattle.std.specs.Prelude.{◌≡◌, ◌≤◌, T, [], ◌∷◌, ◌++◌, length, take, drop, MatchOption};
ghost use Rattle.runs.specs.Runs.{rising};
ghost use Rattle.runs.specs.Union.{merge, union_of, Least, Either, Joins};

use crate::element::{Element, order_by};
use crate::keyed::Keyed;

// The first element of a union, and the places of what is then left of either run.
#[derive(Clone, Copy)]
struct Step<E> {
    item: E,
    left: usize,
    right: usize,
}

// One step of the union of what two runs have from these places on: the first elements are compared; where one run is used up,
// the other gives its first.
fn advance<E: Element>(
    a: &Keyed<'_, E>,
    b: &Keyed<'_, E>,
    left: usize,
    right: usize,
) -> Option<Step<E>>
    ensures { MatchOption result (merge E.Ord.cmp (drop left a.now.items.now) (drop right b.now.items.now) ≡ []) (λ s. merge E.Ord.cmp (drop left a.now.items.now) (drop right b.now.items.now) ≡ s.item ∷ merge E.Ord.cmp (drop s.left a.now.items.now) (drop s.right b.now.items.now)) }
{
    match (a.items.get(left), b.items.get(right)) {
        (None, None) => None,
        (Some(x), None) => Some(Step {
            item: *x,
            left: left + 1,
            right,
        }),
        (None, Some(y)) => Some(Step {
            item: *y,
            left,
            right: right + 1,
        }),
        (Some(x), Some(y)) => {
            let (x_key, y_key) = (a.keys[left], b.keys[right]);
            // No branch on the order, which cannot be foretold.
            if x_key != y_key {
                let turned = y_key < x_key;
                return Some(Step {
                    item: x.chosen(*y, turned),
                    left: left + usize::from(!turned),
                    right: right + usize::from(turned),
                });
            }
            let order = order_by(*x, x_key, *y, y_key);
            Some(Step {
                item: if order.is_gt() { *y } else { *x },
                left: left + usize::from(order.is_le()),
                right: right + usize::from(order.is_ge()),
            })
        }
    }
}

// Writes the union of what two runs have from these places on at the front of `out`, as far as there are places, and answers how
// many elements it wrote; the other places stay.
fn union_rest<E: Element>(
    a: &Keyed<'_, E>,
    b: &Keyed<'_, E>,
    left: usize,
    right: usize,
    out: &mut [E],
) -> usize
    ensures count { result ≡ length (union_of E.Ord.cmp (length out.old) (drop left a.now.items.now) (drop right b.now.items.now)) }
    ensures value { take result out.new ≡ union_of E.Ord.cmp (length out.old) (drop left a.now.items.now) (drop right b.now.items.now) }
    ensures same { drop result out.new ≡ drop result out.old }
{
    let mut left = left;
    let mut right = right;
    for (n, place) in out.iter_mut().enumerate() {
        let Some(next) = advance(a, b, left, right) else {
            return n;
        };
        *place = next.item;
        left = next.left;
        right = next.right;
    }
    out.len()
}

/// Writes the k-union of the runs `a` and `b` at the front of `out`, which has k places, and answers how many elements it has;
/// the other places stay. The k-union has the k least elements found in either, or all where there are fewer.
pub fn union<E: Element>(a: &Keyed<'_, E>, b: &Keyed<'_, E>, out: &mut [E]) -> usize
    ensures count { result ≡ length (union_of E.Ord.cmp (length out.old) a.now.items.now b.now.items.now) }
    ensures value { take result out.new ≡ union_of E.Ord.cmp (length out.old) a.now.items.now b.now.items.now }
    ensures same { drop result out.new ≡ drop result out.old }
    ensures joins { Joins E.Ord.cmp }
    ensures least { T (rising E.Ord.cmp a.now.items.now) → T (rising E.Ord.cmp b.now.items.now) → Least E.Ord.cmp (length out.old) (Either E.Ord.cmp a.now.items.now b.now.items.now) (take result out.new) }
{
    union_rest(a, b, 0, 0, out)
}

// As `union`, where it is known that the union begins with the first `left` elements of `a`, and goes on from there and from
// the place `right` of `b`. Not inlined, so that a join with nothing new pays nothing for it.
#[inline(never)]
pub(crate) fn union_from<E: Element>(
    a: &Keyed<'_, E>,
    b: &Keyed<'_, E>,
    left: usize,
    right: usize,
    out: &mut [E],
) -> usize
    requires within { left ≤ length a.now.items.now }
    requires fits { left ≤ length out.old }
    requires begins { merge E.Ord.cmp a.now.items.now b.now.items.now ≡ take left a.now.items.now ++ merge E.Ord.cmp (drop left a.now.items.now) (drop right b.now.items.now) }
    ensures count { result ≡ length (union_of E.Ord.cmp (length out.old) a.now.items.now b.now.items.now) }
    ensures value { take result out.new ≡ union_of E.Ord.cmp (length out.old) a.now.items.now b.now.items.now }
    ensures same { drop result out.new ≡ drop result out.old }
{
    // Lent anew here, so that they are known to stay while `out` is written.
    let a = Keyed {
        items: a.items,
        keys: a.keys,
    };
    let b = Keyed {
        items: b.items,
        keys: b.keys,
    };
    out[..left].copy_from_slice(&a.items[..left]);
    left + union_rest(&a, &b, left, right, &mut out[left..])
}

// How many of the first elements of the run `b` may enter the union with the run `a` of at most `most` elements: where `a` is
// full, those whose keys are below that of its last, or all if one has that key.
pub(crate) fn entering<E: Element>(a: &Keyed<'_, E>, most: usize, b: &Keyed<'_, E>) -> usize
    requires few { length a.now.items.now ≤ most }
    requires first { T (rising E.Ord.cmp a.now.items.now) }
    requires second { T (rising E.Ord.cmp b.now.items.now) }
    ensures { union_of E.Ord.cmp most a.now.items.now (take result b.now.items.now) ≡ union_of E.Ord.cmp most a.now.items.now b.now.items.now }
{
    if a.keys.len() < most {
        return b.keys.len();
    }
    match (a.keys.last(), b.keys.last()) {
        (Some(last), Some(other)) if last < other => match b.keys.binary_search(last) {
            Err(end) => end,
            Ok(_) => b.keys.len(),
        },
        _ => b.keys.len(),
    }
}

// How many elements of `a` are passed before the first of `b`: found by halving where `b` is short, else none.
fn passed<E: Element>(a: &Keyed<'_, E>, b: &Keyed<'_, E>) -> usize
    requires { T (rising E.Ord.cmp a.now.items.now) }
    ensures within { result ≤ length a.now.items.now }
    ensures begins { merge E.Ord.cmp a.now.items.now b.now.items.now ≡ take result a.now.items.now ++ merge E.Ord.cmp (drop result a.now.items.now) b.now.items.now }
{
    match b.keys.first() {
        Some(first) if b.keys.len() < a.keys.len() / 8 => a.keys.partition_point(|key| key < first),
        _ => 0,
    }
}

// A front part of the union of two runs that is made of elements of `a` alone: the places that it has come to there, in either
// run. It ends where the next element of `b` is not in `a`, or stands there behind another one with its key, or with a run.
pub(crate) fn known<E: Element>(a: &Keyed<'_, E>, b: &Keyed<'_, E>) -> (usize, usize)
    requires { T (rising E.Ord.cmp a.now.items.now) }
    ensures within { result.0 ≤ length a.now.items.now }
    ensures begins { merge E.Ord.cmp a.now.items.now b.now.items.now ≡ take result.0 a.now.items.now ++ merge E.Ord.cmp (drop result.0 a.now.items.now) (drop result.1 b.now.items.now) }
{
    let start = passed(a, b);
    let mut right = 0;
    for (i, x) in a.items[start..].iter().enumerate() {
        let left = start + i;
        let Some(y) = b.items.get(right) else {
            return (left, right);
        };
        if *x == *y {
            right += 1;
        } else if a.keys[left] >= b.keys[right] {
            return (left, right);
        }
    }
    (a.items.len(), right)
}
