// Lists of at most so many values, which lie in the list itself: a list is copied as a number is.
#![tactic(auto)]

ghost use Rattle.std.specs.Prelude.{◌≡◌, ◌+◌, ◌≤◌, ◌<◌, ◌==◌, [], ◌∷◌, ◌++◌, length, take};
ghost use Rattle.fixed_lists.specs.FixedLists.{fixed_len};

use std::marker::Model;

// The values at the front of an array, and how many there are.
#[derive(Clone, Copy)]
pub struct FixedList<T, const CAP: usize> {
    array: [T; CAP],
    len: usize,
}

impl<T, const CAP: usize> Model for FixedList<T, CAP> {
    ghost use Rattle.std.specs.Prelude.{◌≡◌, ◌+◌, ◌≤◌, ◌++◌, length, take, drop};
    ghost use Rattle.std.proofs.Common.{arith, take-append-drop, length-take-le};
    ghost use Rattle.fixed_lists.specs.FixedLists.{FixedList as Items};

    ghost Value = { Items T };

    ghost view = { λ list. record { items = take list.len list.array; spare = drop list.len list.array } };

    ghost invariant = { λ list. (list.len ≤ CAP) × (length list.array ≡ CAP) };

    ghost inverse = { λ list. record { array = list.items ++ list.spare; len = length list.items } };

    ghost inverse_ok = { λ list h i. record {
      array = take-append-drop list.len list.array i;
      len = length-take-le list.len list.array (omega (arith, h.0, h.1)) i;
    } };
}

impl<T: Copy + Default, const CAP: usize> FixedList<T, CAP> {
    // A list of no values.
    pub fn new() -> Self
        ensures { result.items ≡ [] }
    {
        FixedList {
            array: Default::default(),
            len: 0,
        }
    }

    // The list of the first `len` values of an array.
    pub fn begun(array: [T; CAP], len: usize) -> Self
        requires { len ≤ CAP }
        ensures { result.items ≡ take len array }
    {
        FixedList { array, len }
    }

    // One more value, at the end.
    #[inline]
    pub fn push(&mut self, value: T)
        requires { fixed_len self.old < CAP }
        ensures items { self.new.items ≡ self.old.items ++ value ∷ [] }
        ensures len { fixed_len self.new ≡ fixed_len self.old + 1 }
    {
        self.array[self.len] = value;
        self.len += 1;
    }

    // How many values there are.
    #[inline]
    pub fn len(&self) -> usize
        ensures value { result ≡ fixed_len self.now }
        ensures fits { result ≤ CAP }
    {
        self.len
    }

    // Whether there is no room left.
    #[inline]
    pub fn is_full(&self) -> bool
        ensures value { result ≡ (fixed_len self.now == CAP) }
        ensures fits { fixed_len self.now ≤ CAP }
    {
        self.len == CAP
    }

    // The values.
    #[inline]
    pub fn as_slice(&self) -> &[T]
        ensures value { result.now ≡ self.now.items }
        ensures fits { length result.now ≤ CAP }
    {
        &self.array[..self.len]
    }

    // An array that begins with the values, to work on.
    pub fn array(&self) -> [T; CAP]
        ensures front { take (fixed_len self.now) result ≡ self.now.items }
        ensures fits { fixed_len self.now ≤ CAP }
        ensures whole { length result ≡ CAP }
    {
        self.array
    }
}
