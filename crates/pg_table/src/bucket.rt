//! The labels of one key.
ghost use Rattle.std.specs.Prelude.{◌≡◌, ◌<◌, ◌^◌, ◌==◌, [], ◌∷◌, ◌++◌, length, slice_get, IfSome, IfNone, OnOk};
ghost use Rattle.std.specs.List.{swap_remove};
ghost use Rattle.std.specs.Option.{option_copied, option_to_list};

use crate::table::Entry;
use std::alloc::{AllocError, Global};
use std::marker::Model;
use std::mem;

/// The labels of one key that are not opened. The last one stands in the bucket itself, since most keys have one
/// alone.
#[derive(Drop)]
pub(crate) struct Bucket<T, M> {
    others: Vec<Entry<T, M>>,
    last: Option<Entry<T, M>>,
}

impl<T, M> Model for Bucket<T, M> {
    ghost use Rattle.std.specs.Prelude.{◌≡◌, [], ◌++◌, IfNone};
    ghost use Rattle.std.specs.Option.{option_to_list};
    ghost use Rattle.pg_table.specs.Bucket.{Labels};

    ghost Value = { Labels T M };

    ghost view = { λ a. record { items = a.others.items ++ option_to_list a.last } };

    ghost invariant = { λ a. IfNone a.last (a.others.items ≡ []) };
}

impl<T, M> Bucket<T, M> {
    /// No labels. They take no memory.
    pub(crate) fn new(alloc: Global) -> Bucket<T, M>
        ensures { result.items ≡ [] }
    {
        Bucket {
            others: Vec::new(alloc),
            last: None,
        }
    }

    /// Whether there are no labels.
    #[inline]
    pub(crate) fn is_empty(&self) -> bool
        ensures { result ≡ (length self.now.items == 0) }
    {
        self.last.is_none()
    }

    /// How many labels there are.
    #[inline]
    pub(crate) fn len(&self) -> usize
        ensures { result ≡ length self.now.items }
    {
        match &self.last {
            None => 0,
            Some(_) => self.others.len() + 1,
        }
    }

    /// The label at this place.
    #[inline]
    pub(crate) fn get(&self, index: usize) -> Option<&Entry<T, M>>
        ensures label { option_copied result ≡ slice_get self.now.items index }
        ensures few { IfSome result (λ _. index < 2 ^ 63) }
    {
        if index == self.others.len() {
            return self.last.as_ref();
        }
        self.others.get(index)
    }

    /// Takes the last label.
    pub(crate) fn pop(&mut self) -> Option<Entry<T, M>>
        ensures items { self.old.items ≡ self.new.items ++ option_to_list result }
        ensures none { IfNone result (self.old.items ≡ []) }
    {
        if self.others.is_empty() {
            return self.last.take();
        }
        let next = self.others.pop();
        mem::replace(&mut self.last, next)
    }
}

impl<T: Drop, M: Drop> Bucket<T, M> {
    /// Puts a label at the end.
    #[inline(always)]
    pub(crate) fn push(&mut self, label: Entry<T, M>) -> Result<(), AllocError>
        ensures { OnOk result (self.new.items ≡ self.old.items ++ label ∷ []) }
    {
        if self.last.is_none() {
            self.last = Some(label);
            return Ok(());
        }
        if let Some(other) = mem::replace(&mut self.last, Some(label)) {
            self.others.push(other)?;
        }
        Ok(())
    }

    /// Drops the label at this place, which the last one takes.
    pub(crate) fn swap_remove(&mut self, index: usize)
        requires { index < length self.old.items }
        ensures { (d : Entry T M) → self.new.items ≡ swap_remove self.old.items index d }
    {
        if self.others.is_empty() {
            self.last = None;
            return;
        }
        if let Some(last) = self.last.take() {
            if index < self.others.len() {
                self.others[index] = last;
            }
        }
        self.last = self.others.pop();
    }
}
