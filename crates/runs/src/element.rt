ghost use Rattle.std.specs.Prelude.{ℕ, Bool, cond, T, ◌==◌, ◌≡◌, ◌<◌, map};
ghost use Rattle.std.specs.declared.cmp.Ordering.TheVariants.{Less};
ghost use Rattle.runs.specs.Order.{Lawful};
ghost use Rattle.std.proofs.Common.{rules};

use std::cmp::Ordering;

/// An element of a run. Elements that are equal by the order are the same, and a single value stands in unused places.
pub trait Element: Ord + Copy {
    // the test of an unused place
    ghost blank: { Self → Bool };

    /// Whether the element is the one that stands in unused places.
    fn is_blank(self) -> bool
        ensures { result ≡ blank self };

    // the number by which elements are ordered first
    ghost key: { Self → ℕ };

    /// The number by which elements are ordered first: an element with a lesser key is less.
    fn key(self) -> u64
        ensures { result ≡ key self };

    /// One of two elements: this one, or the other where `for_other` says so.
    fn chosen(self, other: Self, for_other: bool) -> Self
        ensures { result ≡ cond for_other other self }
    {
        if for_other { other } else { self }
    }

    /// The keys of elements, where these were noted one by one: what was noted, or the elements if they are their own keys.
    fn keys<'a>(items: &'a [Self], noted: &'a [u64]) -> &'a [u64]
        ensures { noted.now ≡ map key items.now → result.now ≡ map key items.now }
    {
        let _ = items;
        noted
    }

    ghost keyed: { (x y : Self) → key x < key y → Self.cmp x y ≡ Less };

    ghost lawful: { Lawful Self.cmp };

    ghost one_blank: { (x y : Self) → T (blank x) → T (blank y) → x ≡ y };
}

/// An element that rows can be made of: its default stands in unused places.
pub trait Fresh: Element + Default {
    ghost fresh: { (x : Self) → Self.is_default x → T (Self.blank x) };
}

// The order of two elements: by their keys where these differ.
pub(crate) fn order_by<E: Element>(x: E, x_key: u64, y: E, y_key: u64) -> Ordering
    requires first { x_key ≡ E.Element.key x }
    requires second { y_key ≡ E.Element.key y }
    ensures { result ≡ E.Ord.cmp x y }
{
    match x_key.cmp(&y_key) {
        Ordering::Equal if x == y => Ordering::Equal,
        Ordering::Equal => x.cmp(&y),
        order => order,
    }
}

// Numbers of 64 bits, as hash values are: 0 where unused.
impl Element for u64 {
    ghost blank = { λ x. (x == 0) };

    ghost key = { λ x. x };

    ghost keyed = { Prim.search rules };

    ghost lawful = { Prim.search rules };

    ghost one_blank = { Prim.search rules };

    fn is_blank(self) -> bool {
        self == 0
    }

    fn key(self) -> u64 {
        self
    }

    fn keys<'a>(items: &'a [u64], noted: &'a [u64]) -> &'a [u64] {
        let _ = noted;
        items
    }
}

impl Fresh for u64 {
    ghost fresh = { Prim.search rules };
}
