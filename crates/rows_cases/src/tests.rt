// Rows and trials worked by hand.
use penalty::AbsoluteDeviation;
use rows::{Refusal, Trial, best, trial_best};
use sequencing::{Best, Outcome};
use std::test::Fail;
use test_support::Memory;

// Two channels with readings 2 and 1.
fn two_channels() -> [u16; 64] {
    let mut row = [0; 64];
    row[0] = 2;
    row[1] = 1;
    row
}

// The least of an answer.
fn least_of(answer: Result<Best, Refusal>) -> Option<u64> {
    match answer.ok()?.outcome {
        Outcome::Least { least, .. } => Some(least),
        Outcome::NoLeast(_block) => None,
    }
}

#[test]
fn tries_one_reading_more(rt: HostRuntime) -> Result<(), Fail> {
    let mut row = two_channels();
    let Memory {
        mut windows,
        mut ready,
        mut list,
    } = Memory::new(rt.alloc(), 4, 64, 4)?;
    let penalty = AbsoluteDeviation;
    let answer = best(&penalty, &row, &mut windows, &mut ready, &mut list);
    assert_eq!(rt; least_of(answer), Some(1));
    assert!(rt; list.starts_with(&[0, 1, 0]));
    {
        let trial = Trial::new(&mut row, 1, 2);
        let answer = trial.best(&penalty, &mut windows, &mut ready, &mut list);
        assert_eq!(rt; least_of(answer), Some(2));
        assert!(rt; list.starts_with(&[0, 1, 0, 1]));
    }
    assert_eq!(rt; row, two_channels());
    let answer = trial_best(
        &penalty,
        &mut row,
        1,
        2,
        &mut windows,
        &mut ready,
        &mut list,
    );
    assert_eq!(rt; least_of(answer), Some(2));
    assert_eq!(rt; row, two_channels());
    Ok(())
}

#[test]
fn a_refused_trial_changes_nothing(rt: HostRuntime) -> Result<(), Fail> {
    let mut row = two_channels();
    let Memory {
        mut windows,
        mut ready,
        mut list,
    } = Memory::new(rt.alloc(), 4, 64, 4)?;
    for (channel, readings, number) in [
        (64, 0, 1),
        (0, 0, 2),
        (0, 4097, 2),
        (2, 1, 4),
        (0, 4096, 5),
    ] {
        assert_eq!(rt;
            Trial::check(&row, channel, readings).map_err(Refusal::number),
            Err(number)
        );
        let trial = Trial::new(&mut row, channel, readings);
        let answer = trial.best(&AbsoluteDeviation, &mut windows, &mut ready, &mut list);
        assert_eq!(rt; least_of(answer), Some(1));
        drop(trial);
        assert_eq!(rt; row, two_channels());
    }
    assert_eq!(rt; Trial::check(&row, 0, 4095), Ok(()));
    assert_eq!(rt;
        Trial::check(&row[1..], 64, 0).map_err(Refusal::number),
        Err(17)
    );
    Ok(())
}
