// The heap over lent memory.
ghost use Rattle.std.specs.Prelude.{◌≡◌, List, [], ◌∷◌, length, take, IfNone, IfSome, MatchOption, OnErr, OnOk};
ghost use Rattle.heap.specs.Heaps.{Sound, First, LeftOut, MayLeave, Pushed, Popped, Unchanged};

use crate::order::Ordered;
use crate::sift::{sift_up, take_front};

/// The memory of a heap has no place left.
#[derive(Clone, Copy, PartialEq, Eq, Debug)]
pub struct Full;

/// A heap that keeps its elements in the first places of the memory that it was lent.
// The memory and a length, and no `Vec`: a heap allocates nothing, and its memory is the caller's. The clauses `named`
// below say that it stands in that memory still, so that a caller knows afterwards what this holds.
#[derive(Debug, Drop)]
pub struct Heap<'a, T: Ordered> {
    items: &'a mut [T],
    len: usize,
    pub ghost sound: { Sound T.leq items.now len },
}

impl<'a, T: Ordered> Heap<'a, T> {
    /// A heap that keeps nothing yet. It leaves the memory as it is.
    pub fn new(memory: &'a mut [T]) -> Heap<'a, T>
        ensures none { result.len ≡ 0 }
        ensures untouched { result.items.now ≡ memory.old }
        ensures named { result.items.ghost_name ≡ memory.entry.ghost_name }
    {
        Heap {
            items: memory,
            len: 0,
        }
    }

    /// Keeps nothing any more. It leaves the memory as it is.
    pub fn clear(&mut self)
        ensures named { self.new.items.ghost_name ≡ self.old.items.ghost_name }
        ensures none { self.new.len ≡ 0 }
        ensures untouched { self.new.items.now ≡ self.old.items.now }
    {
        self.len = 0;
    }

    /// Keeps one element more, or refuses it where no place is left.
    pub fn push(&mut self, x: T) -> Result<(), Full>
        ensures named { self.new.items.ghost_name ≡ self.old.items.ghost_name }
        ensures pushed { OnOk result (Pushed x self.old.items.now self.old.len self.new.items.now self.new.len) }
        ensures full { OnErr result ((self.old.len ≡ length self.old.items.now) × Unchanged self.old.items.now self.old.len self.new.items.now self.new.len) }
    {
        let at = self.len;
        if at == self.items.len() {
            return Err(Full);
        }
        self.items[at] = x;
        sift_up(self.items, at);
        self.len = at + 1;
        Ok(())
    }

    /// Keeps one element more. Where no place is left, one of those that are kept and this one is left out and answered, which may
    /// come out before all the others.
    pub fn offer(&mut self, x: T) -> Option<T>
        ensures named { self.new.items.ghost_name ≡ self.old.items.ghost_name }
        ensures long { length self.new.items.now ≡ length self.old.items.now }
        ensures offered { MatchOption result (Pushed x self.old.items.now self.old.len self.new.items.now self.new.len)
            (λ y. LeftOut T.leq x y self.old.items.now self.old.len self.new.items.now self.new.len) }
    {
        if self.push(x).is_ok() {
            return None;
        }
        // Memory without a place keeps nothing.
        let Some(first) = self.first() else {
            return Some(x);
        };
        if !first.leq(&x) {
            return Some(x);
        }
        let out = self.pop().unwrap();
        self.push(x).unwrap();
        Some(out)
    }

    /// Takes out the element that `first` shows; nothing where none is kept.
    pub fn pop(&mut self) -> Option<T>
        ensures named { self.new.items.ghost_name ≡ self.old.items.ghost_name }
        ensures popped { IfSome result (λ x. Popped T.leq x self.old.items.now self.old.len self.new.items.now self.new.len) }
        ensures none { IfNone result ((self.old.len ≡ 0) × Unchanged self.old.items.now self.old.len self.new.items.now self.new.len) }
        ensures order { MatchOption result (MayLeave T.leq (take self.old.len self.old.items.now) [])
            (λ x. (xs : List T) → MayLeave T.leq (take self.new.len self.new.items.now) xs → MayLeave T.leq (take self.old.len self.old.items.now) (x ∷ xs)) }
    {
        let last = self.len.checked_sub(1)?;
        self.len = last;
        Some(take_front(self.items, last))
    }

    /// An element that may come out before every other; nothing where none is kept.
    pub fn first(&self) -> Option<T>
        ensures first { IfSome result (λ x. First T.leq x self.now.items.now self.now.len) }
        ensures none { IfNone result (self.now.len ≡ 0) }
    {
        self.items[..self.len].first().copied()
    }
}
