// What the heap asks of its elements: an order that is total and transitive.
ghost use Rattle.std.specs.Prelude.{◌≡◌, Bool, true, false};

/// A kind of element that a heap can keep. It asks less than std's `Ord`: no `==`, and two elements that may each come
/// out before the other need not be equal.
pub trait Ordered: Copy {
    // Whether the first value may come out before the second: it is equal or first in the order.
    ghost leq: { Self → Self → Bool };

    /// Whether this value may come out before the other.
    fn leq(&self, other: &Self) -> bool
        ensures { result ≡ leq self.now other.now };

    // Of two values one may come out before the other.
    ghost total: { (x y : Self) → leq x y ≡ false → leq y x ≡ true };

    // What may come out before a second, and the second before a third, may come out before the third.
    ghost transitive: { (x y z : Self) → leq x y ≡ true → leq y z ≡ true → leq x z ≡ true };
}
