// A list whose elements lie in the value itself, so that it is copied by copying its bytes.
//
//   Blank        an element that stands in each place without one
//   InlineList   a list of at most CAP elements
ghost use Rattle.std.specs.Prelude.{◌≡◌, ◌+◌, ◌-◌, ◌<◌, ◌≤◌, ⊤, List, [], ◌∷◌, ◌++◌, length, take, insert, replicate, set};
ghost use Rattle.arrayvec.specs.ArrayVec.{array_vec_len};
ghost use Rattle.monomial.specs.Sizes.{most_variables};
ghost use Rattle.monomial.specs.Rows.{one};
ghost use Rattle.monomial.specs.Represented.{monomial};

use monomial::Monomial;
use std::alloc::AllocError;
use std::marker::Model;
use std::ops::DerefSlice;

// A type with a value for the places that no element fills.
pub trait Blank: Copy {
    ghost blank: { Self };

    fn blank() -> Self
        ensures { result ≡ blank };
}

impl Blank for Monomial {
    ghost blank = { monomial most_variables (one most_variables) };

    fn blank() -> Self {
        Monomial::one()
    }
}

// The first `count` of the places hold the elements, and the others the blank, so that the elements fix the value.
pub struct InlineList<T: Blank, const CAP: usize> {
    places: [T; CAP],
    count: usize,
}

impl<T: Blank, const CAP: usize> Model for InlineList<T, CAP> {
    ghost use Rattle.std.specs.Prelude.{◌-◌, ◌++◌, length, take, replicate};
    ghost use Rattle.arrayvec.specs.ArrayVec.{ArrayVec as Items, array_vec_code};
    ghost use Rattle.lines.specs.InlineLists.{BlankAfter, places-back};

    ghost Value = { Items T };

    ghost coded = { array_vec_code T.code };

    ghost view = { λ v. record { items = take v.count v.places } };

    ghost invariant = { λ v. BlankAfter CAP T.blank v.count v.places };

    ghost inverse = { λ v. record { places = v.items ++ replicate (CAP - length v.items) T.blank; count = length v.items } };

    ghost inverse_ok = { λ v h i. let back = places-back CAP T.blank v.count v.places h in record { places = back.1 i; count = back.0 i } };
}

impl<T: Blank, const CAP: usize> InlineList<T, CAP> {
    // A list without elements.
    pub fn new() -> Self
        ensures { result.items ≡ [] }
    {
        InlineList {
            places: [T::blank(); CAP],
            count: 0,
        }
    }

    // A list of blanks.
    pub fn blanks(count: usize) -> Self
        requires { count ≤ CAP }
        ensures { result.items ≡ replicate count T.blank }
    {
        InlineList {
            places: [T::blank(); CAP],
            count,
        }
    }

    // The number of elements.
    #[inline]
    pub fn len(&self) -> usize
        ensures value { result ≡ array_vec_len self.now }
        ensures fits { result ≤ CAP }
    {
        self.deref().len()
    }

    // One element more, behind the others. There must be room.
    #[inline]
    pub fn push(&mut self, element: T)
        requires { array_vec_len self.old < CAP }
        ensures items { self.new.items ≡ self.old.items ++ element ∷ [] }
        ensures len { array_vec_len self.new ≡ array_vec_len self.old + 1 }
    {
        let count = self.count;
        self.places[count] = element;
        self.count = count + 1;
    }

    // The element at `index` is another, if there is one.
    #[inline]
    pub fn set(&mut self, index: usize, element: T)
        ensures { self.new.items ≡ set self.old.items index element }
    {
        if index < self.count {
            self.places[index] = element;
        }
    }

    // The first `count` of the elements, or all of them.
    pub fn truncate(&mut self, count: usize)
        ensures items { self.new.items ≡ take count self.old.items }
        ensures len { array_vec_len self.new + (array_vec_len self.old - count) ≡ array_vec_len self.old }
    {
        if count < self.count {
            let places = &mut self.places[..];
            let blanks = &[T::blank(); CAP][..];
            places[count..].copy_from_slice(&blanks[count..]);
            self.count = count;
        }
    }

    // No element any more.
    pub fn clear(&mut self)
        ensures { self.new.items ≡ [] }
    {
        self.truncate(0);
    }

    // One element more, at `index`: those from there on come behind it. There must be room.
    pub fn insert(&mut self, index: usize, element: T)
        requires in_bounds { index ≤ array_vec_len self.old }
        requires room { array_vec_len self.old < CAP }
        ensures items { self.new.items ≡ insert self.old.items index element }
        ensures len { array_vec_len self.new ≡ array_vec_len self.old + 1 }
    {
        let last = self.count;
        self.places[last] = element;
        last_to(&mut self.places, index, last + 1);
        self.count = last + 1;
    }
}

impl<T: Blank, const CAP: usize> DerefSlice for InlineList<T, CAP> {
    type Elem = T;

    ghost deref_gives = { λ v xs. (xs ≡ v.items) × (length xs ≤ CAP) };

    #[inline]
    fn deref(&self) -> &[T] {
        &self.places[..self.count]
    }
}

impl<T: Blank, const CAP: usize> Default for InlineList<T, CAP> {
    ghost is_default = { λ v. v.items ≡ [] };

    fn default() -> Self {
        Self::new()
    }
}

impl<T: Blank, const CAP: usize> Copy for InlineList<T, CAP> {}

// A clone is a copy, and never fails.
impl<T: Blank, const CAP: usize> Clone for InlineList<T, CAP> {
    ghost is_clone = { λ v w. w ≡ v };

    ghost is_infallible = { λ _. ⊤ };

    fn clone(&self) -> Result<Self, AllocError> {
        Ok(*self)
    }
}

// The element before place `end` comes to place `index`, and those from there on behind it, by two reversals.
fn last_to<T>(places: &mut [T], index: usize, end: usize)
    requires { (index < end) × (end ≤ length places.old) }
    ensures { (front : List T) (last : T) (rest : List T) → places.old ≡ front ++ last ∷ rest → length front + 1 ≡ end
        → places.new ≡ insert front index last ++ rest }
{
    places[index..end].reverse();
    places[index + 1..end].reverse();
}
