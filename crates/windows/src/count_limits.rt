// How many readings of a channel are needed by each slot, and how many may stand by it.
ghost use Rattle.std.specs.Prelude.{ℕ, ◌≤◌, IfErr, OnOk};
ghost use Rattle.round.specs.Lists.{Channel, readings as d_of};
ghost use Rattle.windows.specs.Allowed.{Blocked};
ghost use Rattle.windows.specs.Extremes.{IsLeast};
ghost use Rattle.windows.specs.CountLimits.{AreFewest, AreCountLimits, AreMost, FewestBy, MostBy, SomeAllowed};

use crate::allowed::Counts;
use limits::LIMIT;
use penalty::Penalty;

// How many moments a channel can have: one after each slot, and one before the first.
pub(crate) const MOMENTS: usize = LIMIT as usize + 1;

// For each slot how many readings of a channel are needed by it, and how many may stand by it.
#[derive(Drop)]
pub(crate) struct CountLimits {
    pub(crate) fewest: [u16; MOMENTS],
    pub(crate) most: [u16; MOMENTS],
}

impl<'a, P: Penalty> Counts<'a, P> {
    // Puts both of these for each slot, or finds the first slot after which the channel is blocked.
    // Into the same places for each channel: with new ones for each a small round took a fifth longer.
    pub(crate) fn count_limits(&self, limits: &mut CountLimits) -> Result<(), u16>
        requires { Channel self.now.table.now.by_channel self.now.channel }
        ensures unblocked { OnOk result ((k : ℕ) →
            Blocked (P.cost self.now.penalty.now) self.now.table.now.by_channel self.now.bound k self.now.channel → ⊥) }
        ensures limits { OnOk result (
            AreCountLimits (P.cost self.now.penalty.now) self.now.table.now.by_channel self.now.bound
            self.now.channel limits.new.fewest limits.new.most) }
        ensures blocked { IfErr result (IsLeast (λ k.
            Blocked (P.cost self.now.penalty.now) self.now.table.now.by_channel self.now.bound k self.now.channel)) }
    {
        self.put_fewest(&mut limits.fewest)?;
        self.put_most(&mut limits.most);
        Ok(())
    }

    // Puts for each slot how many readings are needed by it, or finds the first slot after which the channel is blocked.
    fn put_fewest(&self, fewest: &mut [u16; MOMENTS]) -> Result<(), u16>
        requires { Channel self.now.table.now.by_channel self.now.channel }
        ensures unblocked { OnOk result ((k : ℕ) →
            Blocked (P.cost self.now.penalty.now) self.now.table.now.by_channel self.now.bound k self.now.channel → ⊥) }
        ensures fewest { OnOk result (
            AreFewest (P.cost self.now.penalty.now) self.now.table.now.by_channel self.now.bound self.now.channel fewest.new) }
        ensures blocked { IfErr result (IsLeast (λ k.
            Blocked (P.cost self.now.penalty.now) self.now.table.now.by_channel self.now.bound k self.now.channel)) }
    {
        let mut count = 0;
        for slot in 0..=self.table.total() {
            let Some(next) = self.fewest_by(slot, count) else {
                return Err(slot);
            };
            fewest[usize::from(slot)] = next;
            count = next;
        }
        Ok(())
    }

    // How many readings are needed by a slot where `before` are needed before it, unless the channel is blocked after
    // it. The count before is the first that is asked about, and is the answer where it is allowed.
    #[tactic(auto, using(crate::proofs::Searches::fewest_same, crate::proofs::Searches::fewest_above, crate::proofs::Searches::fewest_nowhere))]
    fn fewest_by(&self, slot: u16, before: u16) -> Option<u16>
        requires { before ≤ d_of self.now.table.now.by_channel self.now.channel }
        ensures { FewestBy (P.cost self.now.penalty.now) self.now.table.now.by_channel self.now.bound
            slot self.now.channel before result }
    {
        if self.allows(slot, before) {
            return Some(before);
        }
        if let Some(count) = self.lowest_above(slot, before) {
            return Some(count);
        }
        self.highest_below(slot, before)?;
        Some(before)
    }

    // Puts for each slot how many readings may stand by it, where the channel is blocked after none.
    fn put_most(&self, most: &mut [u16; MOMENTS])
        requires channel { Channel self.now.table.now.by_channel self.now.channel }
        requires unblocked { (k : ℕ) →
            Blocked (P.cost self.now.penalty.now) self.now.table.now.by_channel self.now.bound k self.now.channel → ⊥ }
        ensures { AreMost (P.cost self.now.penalty.now) self.now.table.now.by_channel self.now.bound self.now.channel most.new }
    {
        let mut count = self.readings();
        for slot in (0..=self.table.total()).rev() {
            count = self.most_by(slot, count);
            most[usize::from(slot)] = count;
        }
    }

    // How many readings may stand by a slot where `after` may stand by the next.
    fn most_by(&self, slot: u16, after: u16) -> u16
        requires few { after ≤ d_of self.now.table.now.by_channel self.now.channel }
        requires some { SomeAllowed (P.cost self.now.penalty.now) self.now.table.now.by_channel self.now.bound
            slot self.now.channel }
        ensures { MostBy (P.cost self.now.penalty.now) self.now.table.now.by_channel self.now.bound
            slot self.now.channel after result }
    {
        if self.allows(slot, after) {
            return after;
        }
        self.highest_below(slot, after).unwrap_or(after)
    }
}
