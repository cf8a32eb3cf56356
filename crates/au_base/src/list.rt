//! Lists.
ghost use Rattle.std.specs.Borrow.{Array, Lends, sem};
ghost use Rattle.std.specs.Fn.{CalledAt};
ghost use Rattle.std.specs.Iterator.Adapters.{IterYieldsInOrder};
ghost use Rattle.std.specs.List.{filter};
ghost use Rattle.std.specs.Slice.Iter.{iter_rest};
ghost use Rattle.std.specs.List.Retain.{IsFiltered};
ghost use Rattle.std.specs.Prelude.{◌≡◌, ◌++◌, ◌∷◌, [], length, OnOk, OnErr, IsTrue, MatchOption, Bool, ◌<◌, ◌^◌, ◌↔◌};
ghost use Rattle.au_base.specs.contracts.list.List.{the_row};
ghost use Rattle.au_base.specs.Order.{is_in_order, placed};
ghost use Rattle.au_base.specs.Elements.{Computes, rewritten};

use crate::{InOrder, Memory, place_in_order};
use std::alloc::{AllocError, Global};
use std::marker::Model;
use std::slice::Iter;

/// A vector that contracts see as the list of its elements, and as nothing else: how much room it
/// has stands in no contract of its own. Where a call has to be seen to take no memory, the list is
/// taken as its vector by `into_vec`, whose room contracts see, and is given back by `from_vec`;
/// neither takes memory.
#[derive(Debug, Drop)]
pub struct List<T> {
    elements: Vec<T>,
}

impl<T> Model for List<T> {
    ghost use Rattle.std.specs.Prelude.{List as Sequence};
    ghost use Rattle.std.specs.Coded.{coded_list};

    ghost Value = { Sequence T };

    ghost coded = { coded_list T.code };

    ghost view = { λ l. l.elements.items };
}

impl<T> List<T> {
    /// The empty list.
    pub fn new(alloc: Global) -> Self
        ensures { result ≡ [] }
    {
        List {
            elements: Vec::new(alloc),
        }
    }

    /// The vector as a list. It takes no memory.
    pub fn from_vec(elements: Vec<T>) -> Self
        ensures { result ≡ elements.items }
    {
        List { elements }
    }

    /// The list as a vector. It takes no memory.
    pub fn into_vec(self) -> Vec<T>
        ensures { result.items ≡ self }
    {
        let List { elements } = self;
        elements
    }

    /// Its elements.
    pub fn as_slice(&self) -> &[T]
        ensures { result.now ≡ self.now }
    {
        self.elements.as_slice()
    }

    /// Its elements in turn. The first that meets a test is `iter().find(..)`, and its place
    /// `iter().position(..)`.
    pub fn iter(&self) -> Iter<'_, T>
        ensures rest { iter_rest result ≡ self.now }
        ensures runs { IterYieldsInOrder T }
        ensures bound { length self.now < 2 ^ 64 }
    {
        self.elements.iter()
    }

    /// Its elements, to be written. What the slice becomes, which keeps its length, is what the
    /// list becomes.
    pub fn as_mut_slice(&mut self) -> &mut [T]
        ensures* writes_back { sem 𝓛 (Lends (the_row T.row) (Array T.row 0) self.entry result (rewritten self.old)) }
        ensures value { result.now ≡ self.old }
    {
        self.elements.as_mut_slice()
    }

    /// Makes room for so many more elements. The list is as it was, and where there is no memory
    /// too.
    pub fn reserve(&mut self, more: usize) -> Result<(), Memory>
        ensures { self.new ≡ self.old }
    {
        self.elements.reserve(more)?;
        Ok(())
    }

    /// Takes the last element out. `None` where there is none. It takes no memory.
    pub fn pop(&mut self) -> Option<T>
        ensures { MatchOption result ((self.old ≡ []) × (self.new ≡ [])) (λ last. self.old ≡ self.new ++ last ∷ []) }
    {
        self.elements.pop()
    }

    /// Moves the other list's elements behind its own. Where there is no memory, both are as they
    /// were.
    pub fn append(&mut self, other: &mut List<T>) -> Result<(), Memory>
        ensures ok { OnOk result ((self.new ≡ self.old ++ other.old) × (other.new ≡ [])) }
        ensures err { OnErr result ((self.new ≡ self.old) × (other.new ≡ other.old)) }
    {
        self.elements.append(&mut other.elements)?;
        Ok(())
    }

    /// How many elements it has.
    pub fn len(&self) -> usize
        ensures { result ≡ length self.now }
    {
        self.elements.len()
    }

    /// Whether it has none.
    pub fn is_empty(&self) -> bool
        ensures { IsTrue result ↔ (self.now ≡ []) }
    {
        self.elements.is_empty()
    }
}

impl<T: Drop> List<T> {
    /// Adds an element at the end. Where there is no memory, the value is dropped and the list is
    /// as it was.
    pub fn push(&mut self, value: T) -> Result<(), Memory>
        ensures ok { OnOk result (self.new ≡ self.old ++ value ∷ []) }
        ensures err { OnErr result (self.new ≡ self.old) }
    {
        self.elements.push(value)?;
        Ok(())
    }

    /// Drops the elements that fail the test. The others keep their order. It takes no memory.
    pub fn retain<F: FnMut(&T) -> bool>(&mut self, test: F)
        requires { F.IsAlwaysCallable test }
        ensures tested { IsFiltered (CalledAt F.FnMut) test self.old self.new }
        ensures kept { (meets : T → Bool) → Computes (CalledAt F.FnMut) meets test → self.new ≡ filter meets self.old }
    {
        self.elements.retain(test);
    }
}

impl<T: InOrder + Drop> List<T> {
    /// Places the value among the elements, which stand in order. Where there is no memory, the
    /// value is dropped and the list is as it was.
    pub fn insert_in_order(&mut self, value: T) -> Result<(), Memory>
        requires { IsTrue (is_in_order T.before self.old) }
        ensures ok { OnOk result (self.new ≡ placed T.before value self.old) }
        ensures err { OnErr result (self.new ≡ self.old) }
    {
        let place = place_in_order(self.elements.as_slice(), &value);
        self.elements.insert(place, value)?;
        Ok(())
    }
}

impl<T: Clone> Clone for List<T> {
    ghost use Rattle.std.specs.List.{AllZip};

    ghost is_clone = { AllZip T.is_clone };

    fn clone(&self) -> Result<Self, AllocError> {
        Ok(List {
            elements: self.elements.clone()?,
        })
    }
}

impl<T: PartialEq> PartialEq for List<T> {
    ghost use Rattle.std.specs.Cmp.Lexicographic.{pointwise, lists_per};

    ghost eq = { pointwise T.eq };

    ghost laws = { lists_per T.laws };

    fn eq(&self, other: &Self) -> bool {
        self.elements == other.elements
    }
}

impl<T: Eq> Eq for List<T> {
    ghost use Rattle.std.specs.Cmp.Lexicographic.{lists_equiv};

    ghost laws = { lists_equiv T.Eq.laws };
}
