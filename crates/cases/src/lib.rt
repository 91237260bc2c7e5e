// Cases that stand one after another in bytes, for the programs that answer many of them.
#![tactic(auto)]

ghost use Rattle.std.specs.Prelude.{◌≡◌, ℕ, ◌<◌, List, IfSome, MatchOption, length};
ghost use Rattle.std.specs.Iterator.{at_most};

use std::marker::PhantomData;

/// What a program is asked in one of its cases.
pub trait Case<'a>: Sized {
    // Whether bytes begin with a case and others come after it; an impl that leaves it out claims nothing.
    ghost begins: { List ℕ → Self → List ℕ → Type 0 } = { λ _ _ _. Unit {0} };

    // Whether bytes begin with no whole case; an impl that leaves it out claims nothing.
    ghost ends: { List ℕ → Type 0 } = { λ _. Unit {0} };

    /// The first case of the bytes, and the bytes after it; nothing where they hold no whole case.
    fn split_first(bytes: &'a [u8]) -> Option<(Self, &'a [u8])>
        ensures first { MatchOption result (ends bytes.now) (λ parts. begins bytes.now parts.0 parts.1.now) }
        ensures fewer { IfSome result (λ parts. length parts.1.now < length bytes.now) };
}

/// The cases that bytes hold, up to the first that is not whole.
#[derive(Drop)]
pub struct Cases<'a, C> {
    rest: &'a [u8],
    kind: PhantomData<C>,
}

impl<'a, C> Cases<'a, C> {
    /// The cases of these bytes.
    pub fn new(bytes: &'a [u8]) -> Cases<'a, C>
        ensures { result.rest.now ≡ bytes.now }
    {
        Cases {
            rest: bytes,
            kind: PhantomData,
        }
    }
}

impl<'a, C: Case<'a>> Iterator for Cases<'a, C> {
    type Item = C;

    ghost next_gives = { λ s r t. MatchOption r (C.ends s.rest.now × (t.rest.now ≡ s.rest.now)) (λ case. C.begins s.rest.now case t.rest.now) };

    ghost remaining = { λ s. at_most (length s.rest.now) };

    fn next(&mut self) -> Option<C> {
        let (case, rest) = C::split_first(self.rest)?;
        self.rest = rest;
        Some(case)
    }
}
