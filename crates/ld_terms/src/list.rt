ghost use Rattle.std.specs.Prelude.{◌≡◌, IfOk};
ghost use Rattle.std.specs.Cmp.Lexicographic.{slice_cmp, slice_partial_cmp, pointwise};
ghost use Rattle.std.specs.Cmp.Lexicographic.{lists_per, lists_equiv, lists_po, lists_total, lists_agrees, lists_ties};

use std::alloc::{AllocError, Global};
use std::cmp::Ordering;
use std::marker::Model;

/// Bytes of a text.
pub type Bytes = List<u8>;

/// A list inside plain data: a `Vec` that contracts see as the list of its elements, and that may hold the type that holds it.
#[derive(Debug, Drop)]
pub struct List<X> {
    items: Vec<X>,
}

impl<X> Model for List<X> {
    ghost use Rattle.std.specs.Prelude.{List as Listed};
    ghost use Rattle.std.specs.Coded.{coded_list};

    ghost Value = { Listed X };

    ghost coded = { coded_list X.code };

    ghost view = { λ l. l.items.items };
}

impl<X> List<X> {
    /// The list of a vector's elements. Takes no memory.
    pub fn of(items: Vec<X>) -> List<X>
        ensures { result ≡ items.items }
    {
        List { items }
    }

    /// The elements, in order.
    pub fn as_slice(&self) -> &[X]
        ensures { result.now ≡ self.now }
    {
        self.items.as_slice()
    }

    /// The elements as a vector. Takes no memory.
    pub fn into_vec(self) -> Vec<X>
        ensures { result.items ≡ self }
    {
        self.items
    }
}

impl<X: Copy> List<X> {
    /// The list of a slice's elements. Fails for want of memory alone.
    pub fn from_slice(alloc: Global, items: &[X]) -> Result<List<X>, AllocError>
        ensures { IfOk result (λ l. l ≡ items.now) }
    {
        let items = Vec::from_slice(alloc, items)?;
        Ok(List::of(items))
    }
}

impl<X: Copy> Clone for List<X> {
    ghost is_clone = { λ a b. b ≡ a };

    fn clone(&self) -> Result<List<X>, AllocError> {
        List::from_slice(*self.items.allocator(), &self.items)
    }
}

impl<X: PartialEq> PartialEq for List<X> {
    ghost eq = { pointwise X.eq };

    ghost laws = { lists_per X.laws };

    fn eq(&self, other: &Self) -> bool {
        self.items == other.items
    }
}

impl<X: Eq> Eq for List<X> {
    ghost laws = { lists_equiv X.Eq.laws };
}

impl<X: PartialOrd> PartialOrd for List<X> {
    ghost partial_cmp = { slice_partial_cmp X.partial_cmp };

    ghost laws = { lists_po X.PartialOrd.laws };

    fn partial_cmp(&self, other: &Self) -> Option<Ordering> {
        self.items.partial_cmp(&other.items)
    }
}

impl<X: Ord> Ord for List<X> {
    ghost cmp = { slice_cmp X.cmp };

    ghost total = { lists_total X.total };

    ghost matches_partial_cmp = { lists_agrees X.matches_partial_cmp };

    ghost matches_eq = { lists_ties X.cmp X.matches_eq };

    fn cmp(&self, other: &Self) -> Ordering {
        self.items.cmp(&other.items)
    }
}
