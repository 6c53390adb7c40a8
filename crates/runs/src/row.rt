ghost use Rattle.std.specs.Prelude.{◌≡◌, ◌≤◌, T, [], ◌∷◌, length};
ghost use Rattle.runs.specs.Runs.{as_run, keeps, counts, form_of};
ghost use Rattle.runs.specs.Union.{joined_runs};

use crate::element::{Element, Fresh};
use crate::keyed::Keyed;
use crate::place::{place_for, put_at};
use crate::run::{all_blank, is_run_row};
use crate::union::{entering, known, union_from};

/// A plain row of places. Nothing is known of it: a row that is no run stands for the empty run.
#[derive(Clone, Copy, PartialEq, Eq, Debug)]
pub struct Row<E, const N: usize> {
    /// how many places are in use, the first ones
    pub count: usize,
    /// the elements in use, then unused places
    pub places: [E; N],
}

impl<E: Element, const N: usize> Row<E, N> {
    /// The elements of the run that the row stands for, rising: none where the row fails the check.
    pub fn items(&self) -> &[E]
        ensures { result.now ≡ (form_of E.Ord.cmp E.Element.blank self.now).items }
    {
        if !is_run_row(self.count, &self.places) {
            return &[];
        }
        let places = &self.places[..];
        &places[0..self.count]
    }

    // The same beside their keys, for which room is lent.
    fn keyed<'a>(&'a self, room: &'a mut [u64]) -> Keyed<'a, E>
        requires { N ≤ length room.old }
        ensures { result.items.now ≡ (form_of E.Ord.cmp E.Element.blank self.now).items }
    {
        let places = &self.places[..];
        let Some((front, rest)) = places.split_at_checked(self.count) else {
            return Keyed::none();
        };
        let Some(run) = Keyed::of(front, room) else {
            return Keyed::none();
        };
        if all_blank(rest) {
            return run;
        }
        Keyed::none()
    }
}

impl<E: Fresh, const N: usize> Row<E, N> {
    /// A row with no elements.
    pub fn empty() -> Row<E, N>
        ensures kept { T (keeps E.Ord.cmp E.Element.blank result) }
        ensures nothing { counts result ≡ [] }
        ensures form { form_of E.Ord.cmp E.Element.blank result ≡ as_run E.Ord.cmp N [] }
    {
        Row {
            count: 0,
            places: [E::default(); N],
        }
    }

    /// A row of one element, or of none where it has no places.
    pub fn single(item: E) -> Row<E, N>
        ensures { form_of E.Ord.cmp E.Element.blank result ≡ as_run E.Ord.cmp N (item ∷ []) }
    {
        let mut places = [E::default(); N];
        match places.first_mut() {
            Some(first) => {
                *first = item;
                Row { count: 1, places }
            }
            None => Row { count: 0, places },
        }
    }

    /// Joins one element to the run that the row stands for, as the N-union with the run of it. The row stays as it is where
    /// that changes nothing.
    pub fn add(&mut self, item: E)
        ensures { form_of E.Ord.cmp E.Element.blank self.new ≡ joined_runs E.Ord.cmp N (form_of E.Ord.cmp E.Element.blank self.old) (as_run E.Ord.cmp N (item ∷ [])) }
    {
        let run = self.items();
        let count = run.len();
        if count == 0 {
            *self = Row::single(item);
            return;
        }
        if let Some(at) = place_for(run, N, item) {
            self.count = put_at(&mut self.places, count, at, item);
        }
    }

    /// Joins the run that another row stands for to that of this one, as their N-union: the N least elements found in either, or
    /// all where there are fewer. Where that changes nothing, the row stays as it is, but one that fails the check becomes the
    /// empty row. The last two are room for the keys of both.
    pub fn join(&mut self, other: &Row<E, N>, room: [u64; N], other_room: [u64; N])
        ensures form { form_of E.Ord.cmp E.Element.blank self.new ≡ joined_runs E.Ord.cmp N (form_of E.Ord.cmp E.Element.blank self.old) (form_of E.Ord.cmp E.Element.blank other.now) }
        ensures kept { T (keeps E.Ord.cmp E.Element.blank self.new) }
    {
        let mut room = room;
        let mut other_room = other_room;
        let run = self.keyed(&mut room);
        let all = other.keyed(&mut other_room);
        let others = all.first(entering(&run, N, &all));
        let (left, right) = known(&run, &others);
        if right == others.items.len() {
            // A row that stands for no elements may fail the check.
            if run.items.is_empty() {
                *self = Row::empty();
            }
            return;
        }
        let mut places = [E::default(); N];
        self.count = union_from(&run, &others, left, right, &mut places);
        self.places = places;
    }
}
