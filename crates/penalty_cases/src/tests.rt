// The worked tables and audits of docs/RULES.md, costs at the caps, refused settings, and depths.
ghost use Rattle.std.specs.Prelude.{◌≤◌};
ghost use Rattle.penalty.specs.Cost.{bottom};
ghost use Rattle.std.proofs.Common.{rules};

use penalty::{
    AbsoluteDeviation, Band, Layer, Layered, Layers, OwnTable, Penalty, Question, SettingRefusal,
    Stop, TOP, Threshold, TwoSided, Weights,
};
use round::{CostedMoment, Refusal, audit};
use std::test::Fail;
use test_support::worked_rows;

// A bottom of one cost and a depth of its own, for costs and depths that the bottoms do not reach.
#[derive(Clone, Copy)]
struct Constant {
    cost: u64,
    depth: u8,
    ghost capped: { cost ≤ 1099511627775 },
}

impl Penalty for Constant {
    ghost cost = { λ p. bottom (λ _ _ _ _. p.cost) };

    ghost depth = { λ p. p.depth };

    ghost capped = { Prim.search rules };

    ghost outside = { Prim.search rules };

    ghost valley = { Prim.search rules };

    fn cost(&self, question: Question) -> u64 {
        if !question.in_domain() {
            return TOP;
        }
        self.cost
    }

    fn depth(&self) -> u8 {
        self.depth
    }
}

// The cost of a channel with 1 reading in 2 slots, at a count after a slot.
fn cost<P: Penalty>(penalty: &P, channel: u8, count: u16, slot: u16) -> u64 {
    penalty.cost(Question {
        slots: 2,
        channel,
        readings: 1,
        count,
        slot,
    })
}

// The costs of a channel with 1 reading in 2 slots: counts 0 and 1 at k = 0, at k = 1 and at k = 2.
fn costs<P: Penalty>(penalty: &P, channel: u8) -> [u64; 6] {
    [(0, 0), (1, 0), (0, 1), (1, 1), (0, 2), (1, 2)].map(|(count, slot)| cost(
        penalty, channel, count, slot,
    ))
}

// A band of this tolerance; a stop has a function of its own, since each setting has its name.
fn band(tolerance: u32) -> Result<Band, SettingRefusal> {
    Ok(Band {
        tolerance: Threshold::try_from(tolerance)?,
    })
}

// A stop of this limit.
fn stop(limit: u32) -> Result<Stop, SettingRefusal> {
    Ok(Stop {
        limit: Threshold::try_from(limit)?,
    })
}

// Weights 3 and 1 for channels 0 and 1.
fn three_to_one() -> Result<Weights, SettingRefusal> {
    let mut weights = Weights::new();
    weights.set(0, 3)?;
    Ok(weights)
}

// Stop over band 1 over weights 3 and 1.
fn layers(limit: u32) -> Result<Layers, SettingRefusal> {
    Ok(Layers {
        weights: three_to_one()?,
        band: band(1)?,
        stop: stop(limit)?,
    })
}

// The audit of readings 1 and 1.
fn audited<P: Penalty>(penalty: &P, list: &[u8]) -> Result<CostedMoment, Refusal> {
    let mut row = [0; 64];
    row[0] = 1;
    row[1] = 1;
    audit(penalty, &row, list)
}

// A largest cost, first after slot 1.
fn largest(cost: u64, channel: u8) -> Result<CostedMoment, Refusal> {
    Ok(CostedMoment {
        cost,
        slot: 1,
        channel,
    })
}

// The bottom of one cost, at depth 254.
fn constant_of(cost: u64) -> Constant {
    Constant {
        cost: cost.min(TOP),
        depth: 254,
    }
}

// A layer at depth 255.
fn deepest() -> Layered<Constant, Weights> {
    Layered::over(constant_of(0), Weights::new())
}

// One cost under a layer, for channel 0.
fn constant_under<L: Layer + Copy>(constant: u64, layer: &L) -> u64 {
    cost(&Layered::over(constant_of(constant), *layer), 0, 0, 0)
}

#[test]
fn bottoms(rt: HostRuntime) {
    assert_eq!(rt; costs(&AbsoluteDeviation, 0), [0, 2, 1, 1, 2, 0]);
    assert_eq!(rt; costs(&TwoSided, 0), [0, 89, 160, 63, 320, 0]);
    let (ahead, behind) = worked_rows();
    let table = OwnTable::new(&ahead, &behind);
    assert_eq!(rt; costs(&table, 0), [0, 64, 0, 16, 500, 0]);
}

#[test]
fn single_layers(rt: HostRuntime) -> Result<(), Fail> {
    let weighted = Layered::over(AbsoluteDeviation, three_to_one()?);
    assert_eq!(rt; costs(&weighted, 0), [0, 6, 3, 3, 6, 0]);
    assert_eq!(rt; costs(&weighted, 1), [0, 2, 1, 1, 2, 0]);
    let banded = Layered::over(AbsoluteDeviation, band(1)?);
    assert_eq!(rt; costs(&banded, 0), [0, 1, 0, 0, 1, 0]);
    let stopped = Layered::over(AbsoluteDeviation, stop(0)?);
    assert_eq!(rt; costs(&stopped, 0), [0, TOP, 1, TOP, 2, 0]);
    let stopped = Layered::over(AbsoluteDeviation, stop(1)?);
    assert_eq!(rt; costs(&stopped, 0), [0, TOP, 1, 1, 2, 0]);
    Ok(())
}

#[test]
fn order_of_layers(rt: HostRuntime) -> Result<(), Fail> {
    let weighted = Layered::over(AbsoluteDeviation, three_to_one()?);
    let band_above = Layered::over(weighted, band(1)?);
    assert_eq!(rt; costs(&band_above, 0), [0, 5, 2, 2, 5, 0]);
    let banded = Layered::over(AbsoluteDeviation, band(1)?);
    let weights_above = Layered::over(banded, three_to_one()?);
    assert_eq!(rt; costs(&weights_above, 0), [0, 3, 0, 0, 3, 0]);
    Ok(())
}

#[test]
fn weights_at_the_cap(rt: HostRuntime) -> Result<(), Fail> {
    let mut weights = Weights::new();
    assert_eq!(rt; constant_under(TOP - 1, &weights), TOP - 1);
    weights.set(0, 1000)?;
    assert_eq!(rt; constant_under(TOP - 1, &weights), TOP - 1);
    assert_eq!(rt; constant_under(TOP, &weights), TOP);
    weights.set(0, 2)?;
    assert_eq!(rt;
        constant_under(549_755_813_886, &weights),
        1_099_511_627_772
    );
    assert_eq!(rt;
        constant_under(549_755_813_887, &weights),
        1_099_511_627_774
    );
    assert_eq!(rt;
        constant_under(549_755_813_888, &weights),
        1_099_511_627_774
    );
    weights.set(0, 0)?;
    assert_eq!(rt; constant_under(TOP - 1, &weights), 0);
    assert_eq!(rt; constant_under(TOP, &weights), TOP);
    Ok(())
}

#[test]
fn bands_at_the_cap(rt: HostRuntime) -> Result<(), Fail> {
    let widest = band(16_777_216)?;
    assert_eq!(rt; constant_under(16_777_215, &widest), 0);
    assert_eq!(rt; constant_under(16_777_216, &widest), 0);
    assert_eq!(rt; constant_under(16_777_217, &widest), 1);
    assert_eq!(rt; constant_under(TOP - 1, &widest), 1_099_494_850_558);
    assert_eq!(rt; constant_under(TOP, &widest), TOP);
    Ok(())
}

#[test]
fn refused_settings(rt: HostRuntime) -> Result<(), Fail> {
    let mut weights = three_to_one()?;
    assert_eq!(rt;
        weights.set(64, 1001),
        Err(SettingRefusal::ChannelAboveLimit)
    );
    assert_eq!(rt; weights.set(0, 1001), Err(SettingRefusal::WeightAboveLimit));
    let weighted = Layered::over(AbsoluteDeviation, weights);
    assert_eq!(rt; costs(&weighted, 0), [0, 6, 3, 3, 6, 0]);
    assert_eq!(rt; weights.set(63, 1000), Ok(()));
    let weighted = Layered::over(AbsoluteDeviation, weights);
    assert_eq!(rt; costs(&weighted, 63), [0, 2000, 1000, 1000, 2000, 0]);
    assert_eq!(rt; Threshold::try_from(16_777_216)?.value(), 16_777_216);
    assert_eq!(rt;
        Threshold::try_from(16_777_217),
        Err(SettingRefusal::ThresholdAboveLimit)
    );
    Ok(())
}

#[test]
fn depths(rt: HostRuntime) -> Result<(), Fail> {
    assert_eq!(rt; AbsoluteDeviation.depth(), 0);
    assert_eq!(rt; TwoSided.depth(), 0);
    let one = Layered::over(TwoSided, stop(0)?);
    assert_eq!(rt; one.depth(), 1);
    assert_eq!(rt; Layered::over(one, band(0)?).depth(), 2);
    assert_eq!(rt; constant_of(0).depth(), 254);
    assert_eq!(rt; deepest().depth(), 255);
    assert_eq!(rt; Layered::over(deepest(), Weights::new()).depth(), 255);
    assert_eq!(rt; Layered::over(deepest(), band(0)?).depth(), 255);
    assert_eq!(rt; Layered::over(deepest(), stop(0)?).depth(), 255);
    Ok(())
}

#[test]
fn piles(rt: HostRuntime) -> Result<(), Fail> {
    let absolute = layers(1)?.over(AbsoluteDeviation);
    assert_eq!(rt; costs(&absolute, 0), [0, TOP, 2, 2, 5, 0]);
    assert_eq!(rt; costs(&absolute, 1), [0, TOP, 0, 0, 1, 0]);
    let two_sided = layers(1)?.over(TwoSided);
    assert_eq!(rt; costs(&two_sided, 0), [0, TOP, 479, 188, 959, 0]);
    assert_eq!(rt; costs(&two_sided, 1), [0, TOP, 159, 62, 319, 0]);
    let (ahead, behind) = worked_rows();
    let own = layers(1)?.over(OwnTable::new(&ahead, &behind));
    assert_eq!(rt; costs(&own, 0), [0, TOP, 0, 47, 1499, 0]);
    assert_eq!(rt; costs(&own, 1), [0, TOP, 0, 15, 499, 0]);
    Ok(())
}

#[test]
fn audits_over_piles(rt: HostRuntime) -> Result<(), Fail> {
    assert_eq!(rt;
        audited(&layers(1)?.over(AbsoluteDeviation), &[0, 1]),
        largest(2, 0)
    );
    assert_eq!(rt;
        audited(&layers(0)?.over(AbsoluteDeviation), &[0, 1]),
        largest(TOP, 0)
    );
    assert_eq!(rt;
        audited(&layers(0)?.over(AbsoluteDeviation), &[1, 0]),
        largest(TOP, 1)
    );
    assert_eq!(rt;
        audited(&layers(1)?.over(TwoSided), &[0, 1]),
        largest(188, 0)
    );
    assert_eq!(rt;
        audited(&layers(1)?.over(TwoSided), &[1, 0]),
        largest(479, 0)
    );
    assert_eq!(rt;
        audited(&layers(1)?.over(TwoSided), &[1, 1]),
        Err(Refusal::WrongCount { channel: 0 })
    );
    let (ahead, behind) = worked_rows();
    let own = OwnTable::new(&ahead, &behind);
    assert_eq!(rt; audited(&own, &[0, 1]), largest(16, 0));
    assert_eq!(rt; audited(&layers(1)?.over(own), &[0, 1]), largest(47, 0));
    assert_eq!(rt; audited(&layers(1)?.over(own), &[1, 0]), largest(15, 1));
    Ok(())
}
