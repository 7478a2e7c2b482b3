//! Lists: vectors of bytes, texts, index points, tracks and seek points.

ghost use Rattle.std.specs.Prelude.{◌≡◌, ◌<◌, ◌^◌, ◌++◌, ◌∷◌, [], List, length, nat_eq, IfOk, OnOk, OnErr};
ghost use Rattle.std.specs.Cmp.Lexicographic.{pointwise, lists_equiv, lists_per};
ghost use Rattle.std.specs.Iterator.Runs.{EveryRun, ItemsMapTo};
ghost use Rattle.std.specs.List.{AllZip};
ghost use Rattle.std.specs.Slice.Iter.{iter_rest, iter_steps};

use std::alloc::AllocError;
use std::marker::Model;
use std::slice;

/// The entries of a list in a block: a vector, which contracts see as a list.
#[derive(Debug, Drop)]
pub struct Entries<T> {
    items: Vec<T>,
}

impl<T> Model for Entries<T> {
    ghost Value = { List T };

    ghost view = { λ i. i.items.items };
}

impl<T: PartialEq> PartialEq for Entries<T> {
    ghost eq = { pointwise T.eq };

    ghost laws = { lists_per T.laws };

    fn eq(&self, other: &Entries<T>) -> bool {
        self.items == other.items
    }
}

impl<T: Eq> Eq for Entries<T> {
    ghost laws = { lists_equiv T.Eq.laws };
}

impl<'a, T> IntoIterator for &'a Entries<T> {
    type Item = &'a T;

    type IntoIter = slice::Iter<'a, T>;

    ghost into_iter_gives = { λ i it. (iter_rest it ≡ i.now) × (length (iter_rest it) < 2 ^ 64)
        × EveryRun (iter_steps {A = T}) (λ p. ItemsMapTo p (λ x. x.now) (iter_rest p.from)) };

    fn into_iter(self) -> slice::Iter<'a, T> {
        self.as_slice().iter()
    }
}

impl<T: Clone> Entries<T> {
    /// Copies the items. `Clone` is written for each type of list, since its contract says that the copy equals the
    /// list, and not of each item what the item's own `clone` says.
    pub(crate) fn copied(&self) -> Result<Entries<T>, AllocError>
        ensures { IfOk result (AllZip T.is_clone self.now) }
    {
        Ok(Entries {
            items: self.items.clone()?,
        })
    }
}

impl<T: Drop> Entries<T> {
    /// Adds an item after the others. After an error the list is as before.
    pub(crate) fn push(&mut self, item: T) -> Result<(), AllocError>
        ensures pushed { OnOk result (self.new ≡ self.old ++ item ∷ []) }
        ensures kept { OnErr result (self.new ≡ self.old) }
    {
        self.items.push(item)?;
        Ok(())
    }
}

impl<T> Entries<T> {
    /// Makes a list of these items.
    pub fn from_vec(items: Vec<T>) -> Entries<T>
        ensures { result ≡ items.items }
    {
        Entries { items }
    }

    /// Returns the items as a vector.
    pub fn into_vec(self) -> Vec<T>
        ensures { result.items ≡ self }
    {
        let Entries { items } = self;
        items
    }

    /// The items.
    pub fn as_slice(&self) -> &[T]
        ensures { result.now ≡ self.now }
    {
        self.items.as_slice()
    }

    /// How many items there are.
    pub fn len(&self) -> usize
        ensures { result ≡ length self.now }
    {
        self.items.len()
    }

    /// Whether there is no item.
    pub fn is_empty(&self) -> bool
        ensures { result ≡ nat_eq (length self.now) 0 }
    {
        self.items.is_empty()
    }

    /// Goes over the items in their order.
    pub fn iter(&self) -> slice::Iter<'_, T>
        ensures { iter_rest result ≡ self.now }
    {
        self.items.iter()
    }
}

/// A vector of bytes.
pub type Bytes = Entries<u8>;

impl Clone for Bytes {
    ghost is_clone = { λ a b. b ≡ a };

    fn clone(&self) -> Result<Bytes, AllocError> {
        self.copied()
    }
}

/// A vector of texts, each of bytes that need not be UTF-8.
pub type Texts = Entries<Bytes>;

impl Clone for Texts {
    ghost is_clone = { λ a b. b ≡ a };

    fn clone(&self) -> Result<Texts, AllocError> {
        self.copied()
    }
}
