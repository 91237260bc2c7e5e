// The enumeration worked by hand, and wrong answers that the comparison has to notice.
ghost use Rattle.std.specs.Prelude.{◌<◌};

use crate::arrangement::next_arrangement;
use crate::comparison::Expected;
use crate::enumeration::{Enumeration, first_arrangement};
use matching::Crowd;
use penalty::{AbsoluteDeviation, TOP};
use roster::Refusal;
use round::Readings;
use sequencing::{Best, Block, Listed, Outcome};
use std::test::Fail;

// A block; which one it is plays no part.
const BLOCK: Block = Block::Crowded(Crowd {
    first: 2,
    last: 2,
    number: 2,
});

// A best of readings 3 and 2, with this least.
fn least(least: u64) -> Best
    requires { least < 1099511627775 }
{
    Best {
        total: 5,
        channels: 2,
        outcome: Outcome::Least {
            least,
            below: Some(BLOCK),
        },
    }
}

// A best of the same without a least.
fn none() -> Best {
    Best {
        total: 5,
        channels: 2,
        outcome: Outcome::NoLeast(BLOCK),
    }
}

#[test]
fn visits_each_arrangement_in_order(rt: HostRuntime) -> Result<(), Fail> {
    let mut readings = Readings::new();
    assert!(rt; readings.set(0, 2) && readings.set(1, 1) && readings.set(2, 1));
    let mut list = first_arrangement(rt.alloc(), &readings)?;
    for arrangement in [
        [0, 0, 1, 2],
        [0, 0, 2, 1],
        [0, 1, 0, 2],
        [0, 1, 2, 0],
        [0, 2, 0, 1],
        [0, 2, 1, 0],
        [1, 0, 0, 2],
        [1, 0, 2, 0],
        [1, 2, 0, 0],
        [2, 0, 0, 1],
        [2, 0, 1, 0],
    ] {
        assert_eq!(rt; list.as_slice(), arrangement.as_slice());
        assert!(rt; next_arrangement(&mut list));
    }
    assert_eq!(rt; list.as_slice(), [2, 1, 0, 0].as_slice());
    assert!(rt; !next_arrangement(&mut list));
    assert_eq!(rt; list.as_slice(), [2, 1, 0, 0].as_slice());
    let all = Enumeration::of(rt.alloc(), &AbsoluteDeviation, &readings)?;
    assert_eq!(rt; all.lists, 12);
    Ok(())
}

// The table of readings 3 and 2.
fn three_and_two() -> Readings {
    let mut readings = Readings::new();
    readings.set(0, 3);
    readings.set(1, 2);
    readings
}

#[test]
fn notices_wrong_lists(rt: HostRuntime) -> Result<(), Fail> {
    let readings = three_and_two();
    let enumeration = Enumeration::of(rt.alloc(), &AbsoluteDeviation, &readings)?;
    let expected = Expected {
        penalty: &AbsoluteDeviation,
        readings: &readings,
        enumeration,
    };
    let within = Ok(Listed::Within);
    let over = Ok(Listed::Over(BLOCK));
    for (bound, answer, list, agrees) in [
        (2, within, [0, 1, 0, 1, 0], true),
        (1, over, [0; 5], true),
        (1, within, [0, 1, 0, 1, 0], false),
        (2, over, [0; 5], false),
        // the list costs 6 after slot 3
        (5, within, [0, 0, 0, 1, 1], false),
        (6, within, [0, 0, 0, 1, 1], true),
        (TOP - 1, within, [0, 1, 0, 1, 1], false),
        (TOP - 1, within, [0, 1, 0, 2, 0], false),
    ] {
        assert_eq!(rt; expected.agrees_listed(bound, answer, &list), agrees);
    }
    assert!(rt; !expected.agrees_listed(TOP - 1, within, &[0, 1, 0, 1]));
    assert!(rt; !expected.agrees_listed(2, Err(Refusal::Present), &[0, 1, 0, 1, 0]));
    Ok(())
}

#[test]
fn notices_wrong_bests(rt: HostRuntime) -> Result<(), Fail> {
    let readings = three_and_two();
    let enumeration = Enumeration::of(rt.alloc(), &AbsoluteDeviation, &readings)?;
    assert_eq!(rt;
        enumeration,
        Enumeration {
            lists: 10,
            smallest: 2
        }
    );
    let expected = Expected {
        penalty: &AbsoluteDeviation,
        readings: &readings,
        enumeration,
    };
    for (answer, list, agrees) in [
        (least(2), [0, 1, 0, 1, 0], true),
        (least(1), [0, 1, 0, 1, 0], false),
        (least(3), [0, 1, 0, 1, 0], false),
        (least(6), [0, 0, 0, 1, 1], false),
        (least(2), [0, 0, 0, 1, 1], false),
        (least(2), [0, 1, 0, 1, 1], false),
        (none(), [0, 1, 0, 1, 0], false),
    ] {
        assert_eq!(rt; expected.agrees_best(Ok(answer), &list), agrees);
    }
    Ok(())
}

#[test]
fn visits_all_or_none(rt: HostRuntime) -> Result<(), Fail> {
    let mut readings = Readings::new();
    for channel in 0..7 {
        assert!(rt; readings.set(channel, 1));
    }
    let seven = Enumeration::of(rt.alloc(), &AbsoluteDeviation, &readings)?;
    assert_eq!(rt; seven.lists, 5040);
    assert!(rt; readings.set(7, 1));
    assert!(rt; Enumeration::of(rt.alloc(), &AbsoluteDeviation, &readings).is_err());
    Ok(())
}
