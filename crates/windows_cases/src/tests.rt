// Windows worked by hand, blocked moments, shut windows, what memory keeps, and how often a penalty is asked.
use matching::{CHANNELS, Window};
use penalty::{AbsoluteDeviation, LIMIT, Penalty, TOP};
use round::Readings;
use std::test::Fail;
use test_support::{CENTRES, Centred, Counting, EMPTY};
use windows::{Moment, Unfilled, fill, steiner_yeomans};

// The table of channels 0, 1 and so on with these readings.
fn table(readings: &[u16]) -> Result<Readings, Fail> {
    let mut row = [0; CHANNELS];
    for (place, &n) in row.iter_mut().zip(readings) {
        *place = n;
    }
    Readings::try_from(row.as_slice()).map_err(|_| Fail::new("a table"))
}

// The record of a window.
fn window(channel: u8, reading: u16, earliest: u16, latest: u16) -> Window {
    Window {
        channel,
        reading,
        earliest,
        latest,
        slot: 0,
    }
}

// The penalty with these centres for the first slots.
fn centred(first: &[u8]) -> Centred {
    let mut centres = [0; CENTRES];
    for (place, &centre) in centres.iter_mut().zip(first) {
        *place = centre;
    }
    Centred { centres }
}

// Why there are no windows of a table.
fn unfilled<P: Penalty>(penalty: &P, readings: &[u16], bound: u64) -> Result<Unfilled, Fail> {
    let mut places = [EMPTY; 8];
    match fill(penalty, &table(readings)?, bound, &mut places) {
        Ok(()) => Err(Fail::new("windows")),
        Err(why) => Ok(why),
    }
}

#[test]
fn worked_windows(rt: HostRuntime) -> Result<(), Fail> {
    let mut places = [EMPTY; 4];
    assert_eq!(rt;
        fill(&AbsoluteDeviation, &table(&[2, 1])?, 1, &mut places),
        Ok(())
    );
    assert_eq!(rt;
        places,
        [
            window(0, 1, 1, 1),
            window(0, 2, 3, 3),
            window(1, 1, 2, 2),
            EMPTY
        ]
    );
    let mut places = [EMPTY; 4];
    assert_eq!(rt;
        fill(&AbsoluteDeviation, &table(&[1, 1])?, 1, &mut places),
        Ok(())
    );
    assert_eq!(rt;
        places,
        [window(0, 1, 1, 2), window(1, 1, 1, 2), EMPTY, EMPTY]
    );
    let mut places = [EMPTY; 4];
    assert_eq!(rt;
        fill(&AbsoluteDeviation, &table(&[1, 1, 1])?, 1, &mut places),
        Ok(())
    );
    assert_eq!(rt;
        places,
        [
            window(0, 1, 2, 2),
            window(1, 1, 2, 2),
            window(2, 1, 2, 2),
            EMPTY
        ]
    );
    Ok(())
}

// Reading 2 of channel 0 may stand by slot 1, but the moment after slot 2 forbids it again.
#[test]
fn a_later_moment_forbids(rt: HostRuntime) -> Result<(), Fail> {
    let mut places = [EMPTY; 3];
    assert_eq!(rt;
        fill(&centred(&[0, 2, 0, 2]), &table(&[2, 1])?, 1, &mut places),
        Ok(())
    );
    assert_eq!(rt;
        places,
        [window(0, 1, 1, 1), window(0, 2, 3, 3), window(1, 1, 1, 1)]
    );
    Ok(())
}

#[test]
fn blocked_moments(rt: HostRuntime) -> Result<(), Fail> {
    assert_eq!(rt;
        unfilled(&AbsoluteDeviation, &[1, 1], 0)?,
        Unfilled::Blocked(Moment {
            slot: 1,
            channel: 0
        })
    );
    // channel 0 is blocked after slot 3, channel 1 nowhere, and channel 2 after slot 1
    assert_eq!(rt;
        unfilled(&AbsoluteDeviation, &[1, 2, 3], 2)?,
        Unfilled::Blocked(Moment {
            slot: 1,
            channel: 2
        })
    );
    Ok(())
}

#[test]
fn shut_windows(rt: HostRuntime) -> Result<(), Fail> {
    assert_eq!(rt;
        unfilled(&centred(&[0, 0]), &[1], 0)?,
        Unfilled::Shut(window(0, 1, 2, 1))
    );
    assert_eq!(rt;
        unfilled(&centred(&[1, 1]), &[1], 0)?,
        Unfilled::Shut(window(0, 1, 1, 0))
    );
    assert_eq!(rt;
        unfilled(&centred(&[0, 2, 0]), &[2], 0)?,
        Unfilled::Shut(window(0, 1, 3, 1))
    );
    // the first reading is open, and the second is shut
    assert_eq!(rt;
        unfilled(&centred(&[0, 2, 1]), &[2], 0)?,
        Unfilled::Shut(window(0, 2, 3, 1))
    );
    Ok(())
}

#[test]
fn memory_stays(rt: HostRuntime) -> Result<(), Fail> {
    let mut places = [EMPTY; 2];
    assert_eq!(rt;
        fill(&AbsoluteDeviation, &table(&[2, 1])?, 1, &mut places),
        Err(Unfilled::Places)
    );
    assert_eq!(rt; places, [EMPTY, EMPTY]);
    assert_eq!(rt;
        fill(&AbsoluteDeviation, &table(&[])?, 0, &mut places),
        Ok(())
    );
    assert_eq!(rt; places, [EMPTY, EMPTY]);
    Ok(())
}

#[test]
fn formulas(rt: HostRuntime) {
    assert_eq!(rt; steiner_yeomans(3, 2, 0, 1), None);
    assert_eq!(rt; steiner_yeomans(3, 2, 1, 1), Some((1, 1)));
    assert_eq!(rt; steiner_yeomans(3, 2, 2, 1), Some((3, 3)));
    assert_eq!(rt; steiner_yeomans(3, 2, 3, 1), None);
    assert_eq!(rt; steiner_yeomans(3, 0, 0, 1), None);
    assert_eq!(rt; steiner_yeomans(4096, 1, 1, TOP - 1), Some((1, 4096)));
    assert_eq!(rt;
        steiner_yeomans(u16::MAX, u16::MAX, u16::MAX, 0),
        Some((u16::MAX, u16::MAX))
    );
    assert_eq!(rt;
        steiner_yeomans(u16::MAX, 1, 1, u64::MAX),
        Some((1, u16::MAX))
    );
}

// How often the absolute deviation is asked for the windows of 64 channels of 64 readings at a bound.
fn asked(rt: &HostRuntime, bound: u64) -> Result<u32, Fail> {
    let counting = Counting::new(AbsoluteDeviation);
    let mut places = vec![in rt.alloc(); EMPTY; usize::from(LIMIT)]?;
    let filled = fill(&counting, &table(&[64; CHANNELS])?, bound, &mut places);
    filled.map_err(|_| Fail::new("no windows"))?;
    Ok(counting.asked())
}

// At a bound that allows every count, twice for each of 64 * 4,097 moments. At bound 4,095 once more each time a count goes on by
// one: at slot 4,096 each channel has its 64 readings, and back at slot 0 none.
#[test]
fn questions(rt: HostRuntime) -> Result<(), Fail> {
    assert_eq!(rt; asked(&rt, TOP - 1)?, 2 * 64 * 4097);
    assert_eq!(rt; asked(&rt, 4095)?, 2 * (64 * 4097 + 64 * 64));
    Ok(())
}
