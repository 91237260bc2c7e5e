// Worked bridges, the last that is taken and the first that is refused, a series of twenty calls, what memory keeps, and how
// often best asks its penalty; the audit and the dearest moments of a list.
ghost use Rattle.std.specs.Prelude.{◌<◌, ◌≤◌};

use heap::Heap;
use matching::{Crowd, Ready, Window};
use penalty::{
    AbsoluteDeviation, Band, LIMIT, Layered, Layers, OwnTable, Penalty, Stop, TOP, Threshold,
    TwoSided, Weights,
};
use roster::{Answer, Call, Refusal, Roster, Sizes, play};
use round::{CostedMoment, Readings};
use sequencing::{Best, Block, Listed, Outcome, best as best_of};
use std::test::Fail;
use test_support::{Counting, EMPTY, worked_rows};
use windows::Moment;

// A byte that no list has.
const FREE: u8 = u8::MAX;

// A ready place that is not written.
const UNREAD: Ready = Ready {
    latest: u16::MAX,
    place: u16::MAX,
};

// So much memory.
fn lent(windows: usize, ready: usize, list: usize) -> Sizes {
    Sizes {
        windows,
        ready,
        list,
    }
}

// A roster with channels 0, 1 and so on of these readings.
fn roster<P: Drop>(penalty: P, readings: &[u16]) -> Result<Roster<P>, Fail> {
    let mut roster = Roster::new(penalty);
    for (channel, &n) in (0u8..).zip(readings) {
        roster
            .add(channel, n)
            .map_err(|_| Fail::new("a channel that is refused"))?;
    }
    Ok(roster)
}

// What best finds, and the list bytes after it.
fn best<P: Penalty + Drop>(penalty: P, readings: &[u16]) -> Result<(Outcome, [u8; 6]), Fail> {
    let mut windows = [EMPTY; 6];
    let mut ready = [UNREAD; 64];
    let mut list = [FREE; 6];
    let roster = roster(penalty, readings)?;
    match roster.best(&mut windows, &mut ready, &mut list) {
        Ok(best) => Ok((best.outcome, list)),
        Err(_) => Err(Fail::new("best is refused")),
    }
}

// What list finds at a bound, and the list bytes after it.
fn list_under<P: Penalty + Drop>(
    penalty: P,
    readings: &[u16],
    bound: u64,
) -> Result<(Result<Listed, Refusal>, [u8; 6]), Fail> {
    let mut windows = [EMPTY; 6];
    let mut ready = [UNREAD; 64];
    let mut list = [FREE; 6];
    let roster = roster(penalty, readings)?;
    let listed = roster.list(bound, &mut windows, &mut ready, &mut list);
    Ok((listed, list))
}

// What best finds under layers over a bottom.
fn best_over<P: Penalty + Drop>(
    bottom: P,
    layers: Layers,
    readings: &[u16],
) -> Result<(Outcome, [u8; 6]), Fail> {
    best(layers.over(bottom), readings)
}

// What list finds at a bound under layers over a bottom.
fn list_over<P: Penalty + Drop>(
    bottom: P,
    layers: Layers,
    readings: &[u16],
    bound: u64,
) -> Result<(Result<Listed, Refusal>, [u8; 6]), Fail> {
    list_under(layers.over(bottom), readings, bound)
}

// What list finds under the absolute deviation.
fn list(readings: &[u16], bound: u64) -> Result<(Result<Listed, Refusal>, [u8; 6]), Fail> {
    list_under(AbsoluteDeviation, readings, bound)
}

// The dearest moment of a list.
fn dearest<P: Penalty + Drop>(
    penalty: P,
    readings: &[u16],
    list: &[u8],
) -> Result<Option<CostedMoment>, Fail> {
    let mut memory = [CostedMoment::default(); 1];
    let mut heap = Heap::new(&mut memory);
    let roster = roster(penalty, readings)?;
    match roster.dearest(list, &mut heap) {
        Ok(()) => Ok(heap.pop()),
        Err(_) => Err(Fail::new("dearest is refused")),
    }
}

// The least bound with the block below it.
fn least(least: u64, below: Option<Block>) -> Outcome {
    Outcome::Least { least, below }
}

// A blocked moment.
fn moment(slot: u16, channel: u8) -> Block {
    Block::Blocked(Moment { slot, channel })
}

// Crowded slots.
fn crowd(first: u16, last: u16, number: u16) -> Block {
    Block::Crowded(Crowd {
        first,
        last,
        number,
    })
}

// A threshold.
fn threshold(value: u32) -> Result<Threshold, Fail> {
    Threshold::try_from(value).map_err(|_| Fail::new("a threshold that is refused"))
}

#[test]
fn worked_lists(rt: HostRuntime) -> Result<(), Fail> {
    let free = [FREE; 6];
    assert_eq!(rt;
        list(&[1, 1], 1)?,
        (Ok(Listed::Within), [0, 1, FREE, FREE, FREE, FREE])
    );
    assert_eq!(rt; list(&[1, 1], 0)?, (Ok(Listed::Over(moment(1, 0))), free));
    assert_eq!(rt;
        list(&[2, 1], 1)?,
        (Ok(Listed::Within), [0, 1, 0, FREE, FREE, FREE])
    );
    // each window is slot 2 alone, so that 2-2, 1-2 and 2-3 are crowded, and 1-3 is not
    let (listed, bytes) = list(&[1, 1, 1], 1)?;
    assert!(rt;
        listed == Ok(Listed::Over(crowd(2, 2, 3)))
            || listed == Ok(Listed::Over(crowd(1, 2, 3)))
            || listed == Ok(Listed::Over(crowd(2, 3, 3)))
    );
    assert_eq!(rt; bytes, free);
    Ok(())
}

#[test]
fn worked_bests(rt: HostRuntime) -> Result<(), Fail> {
    let (outcome, bytes) = best(AbsoluteDeviation, &[1])?;
    assert_eq!(rt; outcome, least(0, None));
    assert_eq!(rt; bytes, [0, FREE, FREE, FREE, FREE, FREE]);
    let (outcome, bytes) = best(AbsoluteDeviation, &[1, 1])?;
    assert_eq!(rt; outcome, least(1, Some(moment(1, 0))));
    assert_eq!(rt; bytes, [0, 1, FREE, FREE, FREE, FREE]);
    let (outcome, bytes) = best(AbsoluteDeviation, &[2, 1])?;
    assert_eq!(rt; outcome, least(1, Some(moment(1, 0))));
    assert_eq!(rt; bytes, [0, 1, 0, FREE, FREE, FREE]);
    let (outcome, bytes) = best(AbsoluteDeviation, &[1, 1, 1])?;
    assert!(rt;
        outcome == least(2, Some(crowd(2, 2, 3)))
            || outcome == least(2, Some(crowd(1, 2, 3)))
            || outcome == least(2, Some(crowd(2, 3, 3)))
    );
    assert_eq!(rt; bytes, [0, 1, 2, FREE, FREE, FREE]);
    let (outcome, bytes) = best(AbsoluteDeviation, &[3, 2])?;
    // after slot 1 channel 0 costs 3 or 2
    assert_eq!(rt; outcome, least(2, Some(moment(1, 0))));
    assert_eq!(rt; bytes, [0, 1, 0, 1, 0, FREE]);
    Ok(())
}

#[test]
fn worked_layers(rt: HostRuntime) -> Result<(), Fail> {
    let mut weights = Weights::new();
    assert_eq!(rt; weights.set(0, 3), Ok(()));
    let (outcome, bytes) = best(Layered::over(AbsoluteDeviation, weights), &[1, 1])?;
    assert_eq!(rt; outcome, least(3, Some(moment(1, 0))));
    assert_eq!(rt; bytes, [0, 1, FREE, FREE, FREE, FREE]);
    let band = Band {
        tolerance: threshold(1)?,
    };
    let (outcome, bytes) = best(Layered::over(AbsoluteDeviation, band), &[1, 1])?;
    assert_eq!(rt; outcome, least(0, None));
    assert_eq!(rt; bytes, [0, 1, FREE, FREE, FREE, FREE]);
    let stop = Stop {
        limit: threshold(0)?,
    };
    let (outcome, bytes) = best(Layered::over(AbsoluteDeviation, stop), &[1, 1])?;
    assert_eq!(rt; outcome, Outcome::NoLeast(crowd(2, 2, 2)));
    assert_eq!(rt; bytes, [FREE; 6]);
    let stop = Stop {
        limit: threshold(1)?,
    };
    let (outcome, bytes) = best(Layered::over(AbsoluteDeviation, stop), &[1, 1])?;
    assert_eq!(rt; outcome, least(1, Some(moment(1, 0))));
    assert_eq!(rt; bytes, [0, 1, FREE, FREE, FREE, FREE]);
    let (outcome, bytes) = best(TwoSided, &[1, 1])?;
    assert_eq!(rt; outcome, least(160, Some(crowd(1, 1, 2))));
    assert_eq!(rt; bytes, [0, 1, FREE, FREE, FREE, FREE]);
    Ok(())
}

#[test]
fn worked_own_table(rt: HostRuntime) -> Result<(), Fail> {
    let (ahead, behind) = worked_rows();
    let table = OwnTable::new(&ahead, &behind);
    // after slot 1 the channel that stands there costs 16, and the other nothing
    let in_turn = [0, 1, FREE, FREE, FREE, FREE];
    let (outcome, bytes) = best(table, &[1, 1])?;
    assert_eq!(rt; outcome, least(16, Some(crowd(2, 2, 2))));
    assert_eq!(rt; bytes, in_turn);
    let (listed, bytes) = list_under(table, &[1, 1], 16)?;
    assert_eq!(rt; listed, Ok(Listed::Within));
    assert_eq!(rt; bytes, in_turn);
    let (listed, bytes) = list_under(table, &[1, 1], 15)?;
    assert_eq!(rt; listed, Ok(Listed::Over(crowd(2, 2, 2))));
    assert_eq!(rt; bytes, [FREE; 6]);
    assert_eq!(rt; dearest(table, &[1, 1], &[0, 1])?, Some(costed(16, 1, 0)));
    // with rows of zeros no list costs anything
    let zeros = OwnTable::new(&ahead, &behind[1..]);
    let (outcome, bytes) = best(zeros, &[1, 1])?;
    assert_eq!(rt; outcome, least(0, None));
    assert_eq!(rt; bytes, in_turn);
    Ok(())
}

// Rows of the largest number from step 1 on: after slot 1 every count costs it.
#[test]
fn largest_numbers(rt: HostRuntime) -> Result<(), Fail> {
    let mut row = [u32::MAX; 256];
    row[0] = 0;
    let table = OwnTable::new(&row, &row);
    let (outcome, bytes) = best(table, &[1, 1])?;
    assert_eq!(rt; outcome, least(4_294_967_295, Some(moment(1, 0))));
    assert_eq!(rt; bytes, [0, 1, FREE, FREE, FREE, FREE]);
    let (listed, _bytes) = list_under(table, &[1, 1], 4_294_967_294)?;
    assert_eq!(rt; listed, Ok(Listed::Over(moment(1, 0))));
    Ok(())
}

// Under weights 3 and 1, band 1 and stop 1 channel 0 in slot 1 costs 47, and channel 1 there 15.
#[test]
fn worked_own_table_under_layers(rt: HostRuntime) -> Result<(), Fail> {
    let (ahead, behind) = worked_rows();
    let mut layers = Layers::new();
    assert_eq!(rt; layers.weights.set(0, 3), Ok(()));
    layers.band.tolerance = threshold(1)?;
    layers.stop.limit = threshold(1)?;
    let table = OwnTable::new(&ahead, &behind);
    let turned = [1, 0, FREE, FREE, FREE, FREE];
    let (outcome, bytes) = best_over(table, layers, &[1, 1])?;
    assert_eq!(rt; outcome, least(15, Some(crowd(2, 2, 2))));
    assert_eq!(rt; bytes, turned);
    let (listed, bytes) = list_over(table, layers, &[1, 1], 15)?;
    assert_eq!(rt; listed, Ok(Listed::Within));
    assert_eq!(rt; bytes, turned);
    let (listed, bytes) = list_over(table, layers, &[1, 1], 14)?;
    assert_eq!(rt; listed, Ok(Listed::Over(crowd(2, 2, 2))));
    assert_eq!(rt; bytes, [FREE; 6]);
    Ok(())
}

// A series over an owner's table: two adds and the best.
#[test]
fn series_over_own_table(rt: HostRuntime) -> Result<(), Fail> {
    let (ahead, behind) = worked_rows();
    let calls = [add(0, 1), add(1, 1), best_call(lent(2, 64, 2))];
    let mut replies = [Ok(Answer::Done); 3];
    let mut windows = [EMPTY; 2];
    let mut ready = [UNREAD; 64];
    let mut list = [FREE; 2];
    let played = play(
        OwnTable::new(&ahead, &behind),
        &calls,
        &mut replies,
        &mut windows,
        &mut ready,
        &mut list,
    );
    assert!(rt; played.is_ok());
    assert_eq!(rt; replies[2], best_is(2, 2, 16, Some(crowd(2, 2, 2))));
    assert_eq!(rt; list, [0, 1]);
    Ok(())
}

#[test]
fn last_and_first(rt: HostRuntime) -> Result<(), Fail> {
    let mut all = Roster::new(AbsoluteDeviation);
    assert_eq!(rt; all.add(63, 4095), Ok(()));
    assert_eq!(rt; all.add(64, 1), Err(Refusal::ChannelAboveLimit));
    assert_eq!(rt; all.add(0, 2), Err(Refusal::TotalAboveLimit));
    assert_eq!(rt; all.add(0, 1), Ok(()));
    assert_eq!(rt; all.readings().total(), 4096);
    assert_eq!(rt; all.change(0, 2), Err(Refusal::TotalAboveLimit));
    assert_eq!(rt; all.add(1, 4097), Err(Refusal::ReadingsOutOfRange));
    assert_eq!(rt; all.readings().of(63), 4095);
    assert_eq!(rt; all.readings().of(0), 1);
    assert_eq!(rt; all.readings().channels(), 2);
    let (listed, _bytes) = list(&[1], TOP - 1)?;
    assert_eq!(rt; listed, Ok(Listed::Within));
    let (listed, bytes) = list(&[1], TOP)?;
    assert_eq!(rt;
        listed,
        Err(Refusal::Sequencing(sequencing::Refusal::BoundAboveLimit))
    );
    assert_eq!(rt; bytes, [FREE; 6]);
    Ok(())
}

// A call that adds a channel.
fn add(channel: u8, readings: u16) -> Call {
    Call::Add { channel, readings }
}

// A call that changes a channel.
fn change(channel: u8, readings: u16) -> Call {
    Call::Change { channel, readings }
}

// A call for a list, and one for the best.
fn list_call(bound: u64, lent: Sizes) -> Call {
    Call::List { bound, lent }
}

fn best_call(lent: Sizes) -> Call {
    Call::Best { lent }
}

// The answer of best where all is well: the least with the block below it.
fn best_is(total: u16, channels: u8, least: u64, below: Option<Block>) -> Result<Answer, Refusal>
    requires total { (0 < total) × (total ≤ 4096) }
    requires channels { (0 < channels) × (channels ≤ 64) }
    requires least { least < TOP }
{
    Ok(Answer::Best(Best {
        total,
        channels,
        outcome: Outcome::Least { least, below },
    }))
}

// A refusal of list or best.
fn unlisted(refusal: sequencing::Refusal) -> Result<Answer, Refusal> {
    Err(Refusal::Sequencing(refusal))
}

// Twenty calls, worked by hand.
fn twenty() -> [Call; 20] {
    [
        best_call(lent(1, 64, 1)),
        add(5, 0),
        add(64, 0),
        add(5, 2),
        add(5, 1),
        change(6, 1),
        list_call(TOP, lent(0, 0, 0)),
        list_call(0, lent(2, 64, 2)),
        add(6, 1),
        list_call(0, lent(3, 64, 3)),
        list_call(1, lent(3, 64, 3)),
        list_call(1, lent(2, 64, 3)),
        best_call(lent(3, 63, 3)),
        best_call(lent(3, 64, 3)),
        change(5, 4096),
        change(5, 1),
        best_call(lent(2, 64, 2)),
        Call::Remove { channel: 6 },
        Call::Remove { channel: 6 },
        best_call(lent(1, 64, 1)),
    ]
}

// The replies to them, and what stands in a place for one more.
fn twenty_replies() -> [Result<Answer, Refusal>; 21] {
    let done = Ok(Answer::Done);
    let within = Ok(Answer::Listed(Listed::Within));
    [
        unlisted(sequencing::Refusal::NoChannel),
        Err(Refusal::ReadingsOutOfRange),
        Err(Refusal::ChannelAboveLimit),
        done,
        Err(Refusal::Present),
        Err(Refusal::Absent),
        unlisted(sequencing::Refusal::BoundAboveLimit),
        within,
        done,
        Ok(Answer::Listed(Listed::Over(moment(1, 5)))),
        within,
        unlisted(sequencing::Refusal::TooLittleMemory),
        unlisted(sequencing::Refusal::TooLittleMemory),
        best_is(3, 2, 1, Some(moment(1, 5))),
        Err(Refusal::TotalAboveLimit),
        done,
        best_is(2, 2, 1, Some(moment(1, 5))),
        done,
        Err(Refusal::Absent),
        best_is(1, 1, 0, None),
        done,
    ]
}

// A window with its slot.
fn placed(channel: u8, reading: u16, slot: u16) -> Window {
    Window {
        channel,
        reading,
        earliest: slot,
        latest: slot,
        slot,
    }
}

// The list bytes stand one call after another; those of a block are free.
#[test]
fn twenty_calls(rt: HostRuntime) -> Result<(), Fail> {
    let mut replies = [Ok(Answer::Done); 21];
    let mut windows = [EMPTY; 21];
    let mut ready = [UNREAD; 576];
    let mut list = [FREE; 22];
    let played = play(
        AbsoluteDeviation,
        &twenty(),
        &mut replies,
        &mut windows,
        &mut ready,
        &mut list,
    );
    let Ok(roster) = played else {
        return Err(Fail::new("too little memory"));
    };
    assert_eq!(rt; replies, twenty_replies());
    assert_eq!(rt; roster.readings().total(), 1);
    assert_eq!(rt; roster.readings().of(5), 1);
    // refused, listed
    assert_eq!(rt; &list[..3], [FREE, 5, 5].as_slice());
    // listed, refused, refused
    let (listed, refused) = (&list[6..9], &list[9..15]);
    assert_eq!(rt; listed, [5, 6, 5].as_slice());
    assert_eq!(rt; refused, [FREE; 6].as_slice());
    // three bests, and what no call is lent
    assert_eq!(rt; &list[15..], [5, 6, 5, 5, 6, 5, FREE].as_slice());
    assert_eq!(rt; windows[0], EMPTY);
    assert_eq!(rt; &windows[9..14], [EMPTY; 5].as_slice());
    let records = [placed(5, 1, 1), placed(5, 2, 3), placed(6, 1, 2)];
    assert_eq!(rt; &windows[14..17], records.as_slice());
    assert_eq!(rt; windows[20], EMPTY);
    assert_eq!(rt; ready[575], UNREAD);
    Ok(())
}

// One reply, window place, ready place or list byte too few, and no call is made.
#[test]
fn too_little(rt: HostRuntime) -> Result<(), Fail> {
    let calls = [add(0, 1), list_call(0, lent(1, 64, 1))];
    for (replies, windows, ready, list) in [
        (1, 1, 64, 1),
        (2, 0, 64, 1),
        (2, 1, 63, 1),
        (2, 1, 64, 0),
    ] {
        let mut own_replies = [Ok(Answer::Done); 2];
        let mut own_windows = [EMPTY; 1];
        let mut own_ready = [UNREAD; 64];
        let mut own_list = [FREE; 1];
        let played = play(
            AbsoluteDeviation,
            &calls,
            &mut own_replies[..replies],
            &mut own_windows[..windows],
            &mut own_ready[..ready],
            &mut own_list[..list],
        );
        assert!(rt; played.is_err());
        assert_eq!(rt; own_replies, [Ok(Answer::Done); 2]);
        assert_eq!(rt; own_windows, [EMPTY]);
        assert_eq!(rt; own_ready, [UNREAD; 64]);
        assert_eq!(rt; own_list, [FREE]);
    }
    Ok(())
}

// The first bound is TOP - 1, and no cost of a list is above 2^24, so 25 others at most are tried, and the list at the least is made
// again. The windows take at most two questions for each of 64 * 4,097 moments and two for each reading, and each list found but the
// last one more for each moment.
#[test]
fn questions(rt: HostRuntime) -> Result<(), Fail> {
    let counting = Counting::new(AbsoluteDeviation);
    let mut windows = vec![in rt.alloc(); EMPTY; usize::from(LIMIT)]?;
    let mut list = vec![in rt.alloc(); FREE; usize::from(LIMIT)]?;
    let mut ready = [UNREAD; 64];
    let row = [64u16; 64];
    let Ok(readings) = Readings::try_from(row.as_slice()) else {
        return Err(Fail::new("no table"));
    };
    let found = best_of(&counting, &readings, &mut windows, &mut ready, &mut list);
    assert!(rt; found.is_ok());
    let moments = 64 * 4097;
    let most = (1 + 25 + 1) * (2 * moments + 2 * 4096) + (1 + 25) * moments;
    assert!(rt; counting.asked() <= most);
    Ok(())
}

// A moment with its cost.
fn costed(cost: u64, slot: u16, channel: u8) -> CostedMoment {
    CostedMoment {
        cost,
        slot,
        channel,
    }
}

#[test]
fn moments_of_a_list(rt: HostRuntime) -> Result<(), Fail> {
    let roster = roster(AbsoluteDeviation, &[2, 1])?;
    assert_eq!(rt; roster.audit(&[0, 1, 0]), Ok(costed(1, 1, 0)));
    let mut memory = [CostedMoment::default(); 3];
    let mut heap = Heap::new(&mut memory);
    assert_eq!(rt; roster.dearest(&[0, 1, 0], &mut heap), Ok(()));
    assert_eq!(rt; roster.dearest(&[0, 0, 1], &mut heap), Ok(()));
    // the costs after slots 1 and 2 are 1 and 1, and 2 and 2
    assert_eq!(rt; heap.pop(), Some(costed(1, 1, 0)));
    assert_eq!(rt; heap.pop(), Some(costed(2, 2, 1)));
    assert_eq!(rt; heap.pop(), Some(costed(2, 2, 0)));
    assert_eq!(rt; heap.pop(), None);
    assert_eq!(rt; roster.audit(&[0, 1]), Err(round::Refusal::ListLength));
    assert_eq!(rt;
        roster.dearest(&[0, 1], &mut heap),
        Err(round::Refusal::ListLength)
    );
    Ok(())
}

#[test]
fn moments_of_equal_cost(rt: HostRuntime) -> Result<(), Fail> {
    let roster = roster(AbsoluteDeviation, &[2, 1])?;
    let mut memory = [CostedMoment::default(); 3];
    let mut heap = Heap::new(&mut memory);
    // all four moments after slots 1 and 2 cost 1: the greatest slot leaves first, and of one slot the greater channel
    assert_eq!(rt; roster.dearest(&[0, 1, 0], &mut heap), Ok(()));
    assert_eq!(rt; heap.pop(), Some(costed(1, 2, 0)));
    assert_eq!(rt; heap.pop(), Some(costed(1, 1, 1)));
    assert_eq!(rt; heap.pop(), Some(costed(1, 1, 0)));
    assert_eq!(rt; heap.pop(), None);
    // nine places keep all eight moments
    let mut more = [CostedMoment::default(); 9];
    let mut all = Heap::new(&mut more);
    assert_eq!(rt; roster.dearest(&[0, 1, 0], &mut all), Ok(()));
    for slot in [3, 0, 2, 1] {
        let cost = u64::from(slot == 1 || slot == 2);
        assert_eq!(rt; all.pop(), Some(costed(cost, slot, 1)));
        assert_eq!(rt; all.pop(), Some(costed(cost, slot, 0)));
    }
    assert_eq!(rt; all.pop(), None);
    Ok(())
}
