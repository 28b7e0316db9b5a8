//! Sequences, which contracts see as lists.
ghost use Rattle.std.specs.Prelude.{◌≡◌, ◌==◌, ◌<◌, ◌≤◌, ℕ, List, [], ◌∷◌, ◌++◌, length, insert, remove, slice_index_or, IfOk, OnOk, OnErr};
ghost use Rattle.std.specs.Fn.{CalledAt};
ghost use Rattle.std.specs.List.Retain.{IsFiltered};

use crate::memory::NoMemory;
use crate::plain::Plain;
use std::alloc::Global;
use std::fmt;
use std::marker::Model;

/// A sequence of values that owns its memory.
#[derive(Clone, Drop)]
pub struct Seq<T> {
    inner: Vec<T>,
}

impl<T> Model for Seq<T> {
    ghost Value = { List T };

    ghost view = { λ s. s.inner.items };
}

impl<T> Seq<T> {
    /// No items yet. Takes no memory.
    pub fn new(alloc: Global) -> Seq<T>
        ensures { result ≡ [] }
    {
        Seq {
            inner: Vec::new(alloc),
        }
    }

    /// The items.
    pub fn as_slice(&self) -> &[T]
        ensures { result.now ≡ self.now }
    {
        self.inner.as_slice()
    }

    /// How many there are.
    pub fn len(&self) -> usize
        ensures { result ≡ length self.now }
    {
        self.inner.len()
    }

    /// Whether there are none.
    pub fn is_empty(&self) -> bool
        ensures { result ≡ (length self.now == 0) }
    {
        self.inner.is_empty()
    }

    /// Takes out the item at a place.
    pub fn remove(&mut self, index: usize) -> T
        requires { index < length self.old }
        ensures value { result ≡ slice_index_or self.old index result }
        ensures items { self.new ≡ remove self.old index }
    {
        self.inner.remove(index)
    }
}

impl<T: Drop> Seq<T> {
    /// Adds an item at the end. An error changes nothing.
    pub fn push(&mut self, item: T) -> Result<(), NoMemory>
        ensures ok { OnOk result (self.new ≡ self.old ++ item ∷ []) }
        ensures err { OnErr result (self.new ≡ self.old) }
    {
        self.inner.push(item)?;
        Ok(())
    }

    /// Puts an item at a place. An error changes nothing.
    pub fn insert(&mut self, index: usize, item: T) -> Result<(), NoMemory>
        requires { index ≤ length self.old }
        ensures ok { OnOk result (self.new ≡ insert self.old index item) }
        ensures err { OnErr result (self.new ≡ self.old) }
    {
        self.inner.insert(index, item)?;
        Ok(())
    }

    /// Keeps the items at which the test answers true.
    pub fn retain<F: FnMut(&T) -> bool>(&mut self, keep: F)
        requires { F.IsAlwaysCallable keep }
        ensures { IsFiltered (CalledAt F.FnMut) keep self.old self.new }
    {
        self.inner.retain(keep);
    }
}

impl<T> From<Vec<T>> for Seq<T> {
    ghost from_gives = { λ v s. s ≡ v.items };

    fn from(inner: Vec<T>) -> Seq<T> {
        Seq { inner }
    }
}

impl<T: Plain> Plain for Seq<T> {
    fn copy(&self) -> Result<Seq<T>, NoMemory> {
        let mut inner = Vec::new(*self.inner.allocator());
        for item in &self.inner {
            inner.push(item.copy()?)?;
        }
        Ok(Seq { inner })
    }
}

impl<T: PartialEq> PartialEq for Seq<T> {
    ghost use Rattle.std.specs.Cmp.Lexicographic.{pointwise, lists_per};

    ghost eq = { pointwise T.eq };

    ghost laws = { lists_per T.laws };

    fn eq(&self, other: &Seq<T>) -> bool {
        self.inner.as_slice() == other.inner.as_slice()
    }
}

impl<T: Eq> Eq for Seq<T> {
    ghost use Rattle.std.specs.Cmp.Rules.{comparing};
    ghost use Rattle.std.proofs.Common.{rules};

    ghost laws = { Prim.search (comparing, rules) };
}

impl<T: fmt::Debug> fmt::Debug for Seq<T> {
    fn fmt<W: fmt::Write>(&self, f: &mut fmt::Formatter<W>) -> fmt::Result {
        let items = self.as_slice();
        write!(f, "{items:?}")
    }
}
