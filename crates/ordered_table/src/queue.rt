// A line of values, of which the first leaves first.
ghost use Rattle.std.specs.Prelude.{◌≡◌, ◌↔◌, [], ◌∷◌, ◌++◌, length, remove, slice_get, IsTrue, IfSome, IfNone, IfErr, OnOk, OnErr, OnSome};
ghost use Rattle.std.specs.Option.{option_copied};

use std::alloc::Global;
use std::collections::VecDeque;
use std::marker::Model;

/// A queue, which contracts see as the list of its items, the first to leave at the front.
#[derive(Debug, Drop)]
pub struct Queue<T> {
    items: VecDeque<T>,
}

impl<T> Model for Queue<T> {
    ghost use Rattle.std.specs.Prelude.{List};
    ghost use Rattle.std.specs.Coded.{coded_list};

    ghost Value = { List T };

    ghost coded = { coded_list T.code };

    ghost view = { λ q. q.items.items };
}

impl<T> Queue<T> {
    pub fn new(alloc: Global) -> Queue<T>
        ensures { result ≡ [] }
    {
        Queue {
            items: VecDeque::new(alloc),
        }
    }

    pub fn len(&self) -> usize
        ensures { result ≡ length self.now }
    {
        self.items.len()
    }

    pub fn is_empty(&self) -> bool
        ensures { IsTrue result ↔ (self.now ≡ []) }
    {
        self.items.is_empty()
    }

    /// Joins the end. An item that finds no memory comes back.
    pub fn push(&mut self, item: T) -> Result<(), T>
        ensures ok { OnOk result (self.new ≡ self.old ++ item ∷ []) }
        ensures err { OnErr result (self.new ≡ self.old) }
        ensures back { IfErr result (λ x. x ≡ item) }
    {
        self.items.push_back(item).map_err(|refused| refused.value)
    }

    /// The first leaves.
    pub fn pop(&mut self) -> Option<T>
        ensures some { IfSome result (λ x. self.old ≡ x ∷ self.new) }
        ensures none { IfNone result (self.old ≡ []) }
        ensures none_new { IfNone result (self.new ≡ []) }
    {
        self.items.pop_front()
    }

    /// The item at a place, counted from 0 at the front. None exactly past the end.
    pub fn get(&self, at: usize) -> Option<&T>
        ensures { option_copied result ≡ slice_get self.now at }
    {
        self.items.get(at)
    }

    /// The item at a place leaves, and the others keep their order.
    pub fn remove(&mut self, at: usize) -> Option<T>
        ensures item { result ≡ slice_get self.old at }
        ensures rest { OnSome result (self.new ≡ remove self.old at) }
        ensures none { IfNone result (self.new ≡ self.old) }
    {
        self.items.remove(at)
    }
}
