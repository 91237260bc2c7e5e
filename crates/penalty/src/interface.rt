// The interface of all penalties: what a moment costs, by the laws that every penalty keeps.
ghost use Rattle.std.specs.Prelude.{◌≡◌, ℕ};
ghost use Rattle.penalty.specs.Cost.{Cost, Capped, Outside, Valley};
ghost use Rattle.penalty.specs.Question.{asked};

use crate::question::Question;

/// The forbidden cost, 2^40 - 1; no cost is larger.
pub const TOP: u64 = 1_099_511_627_775;

/// Gives a cost to a channel's count after a slot. Asking changes nothing and never refuses.
pub trait Penalty {
    // The meaning of a penalty: the cost of slots, channel, readings, count and slot.
    ghost cost: { Self → Cost };

    // How many layers lie over the bottom, but at most 255; no law ties it to the layers.
    ghost depth: { Self → ℕ };

    /// The cost of what is asked.
    fn cost(&self, question: Question) -> u64
        ensures { result ≡ asked (cost self.now) question };

    /// How many layers lie over the bottom, but at most 255.
    fn depth(&self) -> u8
        ensures { result ≡ depth self.now };

    // No cost is above TOP.
    ghost capped: { (p : Self) → Capped (cost p) };

    // Outside the domain the cost is TOP.
    ghost outside: { (p : Self) → Outside (cost p) };

    // Between two counts no count costs more than both.
    ghost valley: { (p : Self) → Valley (cost p) };
}
