// The rows of an owner's table: those that are refused, the table of two rows, and that of zeros.
use penalty::{OwnTable, Penalty, Question, RowRefusal, Side, TOP};

// A row of 256 numbers: 0, and then one number.
fn row_of(number: u32) -> [u32; 256] {
    let mut row = [number; 256];
    row[0] = 0;
    row
}

// A row of 256 numbers: 0, then 1,000, with another number at one step.
fn with(step: u8, number: u32) -> [u32; 256] {
    let mut row = row_of(1000);
    row[usize::from(step)] = number;
    row
}

// The cost of a channel with 1 reading in 2 slots, at a count after a slot.
fn cost(table: OwnTable, count: u16, slot: u16) -> u64 {
    table.cost(Question {
        slots: 2,
        channel: 0,
        readings: 1,
        count,
        slot,
    })
}

// A row that is not as long as it must be.
fn length(row: Side) -> Result<(), RowRefusal> {
    Err(RowRefusal::Length { row })
}

// A row that does not start at 0.
fn first(row: Side) -> Result<(), RowRefusal> {
    Err(RowRefusal::First { row })
}

// A row that falls.
fn falls(row: Side, step: u8) -> Result<(), RowRefusal> {
    Err(RowRefusal::Falls { row, step })
}

#[test]
fn lengths(rt: HostRuntime) {
    let zeros = [0; 257];
    for (ahead, behind, checked) in [
        (256, 256, Ok(())),
        (255, 256, length(Side::Ahead)),
        (257, 256, length(Side::Ahead)),
        (0, 256, length(Side::Ahead)),
        (256, 255, length(Side::Behind)),
        (256, 257, length(Side::Behind)),
        (255, 257, length(Side::Ahead)),
    ] {
        assert_eq!(rt; OwnTable::check(&zeros[..ahead], &zeros[..behind]), checked);
    }
}

#[test]
fn one_fault(rt: HostRuntime) {
    let good = row_of(1000);
    for (row, ahead, behind) in [
        (good, Ok(()), Ok(())),
        (row_of(u32::MAX), Ok(()), Ok(())),
        (with(1, 0), Ok(()), Ok(())),
        (with(255, 1001), Ok(()), Ok(())),
        (with(0, 1), first(Side::Ahead), first(Side::Behind)),
        (with(2, 999), falls(Side::Ahead, 2), falls(Side::Behind, 2)),
        (
            with(255, 999),
            falls(Side::Ahead, 255),
            falls(Side::Behind, 255),
        ),
        // the number at step 100 is above the next
        (
            with(100, 1001),
            falls(Side::Ahead, 101),
            falls(Side::Behind, 101),
        ),
    ] {
        assert_eq!(rt; OwnTable::check(&row, &good), ahead);
        assert_eq!(rt; OwnTable::check(&good, &row), behind);
    }
}

#[test]
fn many_faults(rt: HostRuntime) {
    // this row falls at step 1 too, since its first number is 1
    let mut high = row_of(0);
    high[0] = 1;
    let mut twice = with(2, 999);
    twice[255] = 0;
    let last = with(255, 999);
    for (ahead, behind, checked) in [
        (high, high, first(Side::Ahead)),
        (twice, high, first(Side::Behind)),
        (high, twice, first(Side::Ahead)),
        (twice, twice, falls(Side::Ahead, 2)),
        (last, twice, falls(Side::Ahead, 255)),
    ] {
        assert_eq!(rt; OwnTable::check(&ahead, &behind), checked);
    }
    assert_eq!(rt; OwnTable::check(&high, &twice[1..]), length(Side::Behind));
    assert_eq!(rt;
        OwnTable::check(&high[1..], &twice[1..]),
        length(Side::Ahead)
    );
}

#[test]
fn numbers_of_refusals(rt: HostRuntime) {
    for (refusal, number) in [
        (length(Side::Ahead), 21),
        (first(Side::Behind), 22),
        (falls(Side::Ahead, 2), 23),
    ] {
        assert_eq!(rt; refusal.map_err(|refusal| refusal.number()), Err(number));
    }
}

// One step is an eighth of a reading: with 1 reading in 2 slots the steps are 0, 4 and 8.
#[test]
fn each_side_has_its_row(rt: HostRuntime) {
    let mut ahead = [7; 256];
    ahead[0] = 0;
    ahead[8..].fill(u32::MAX);
    let behind = row_of(5);
    let table = OwnTable::new(&ahead, &behind);
    assert_eq!(rt; cost(table, 0, 0), 0);
    assert_eq!(rt; cost(table, 1, 1), 7);
    assert_eq!(rt; cost(table, 1, 0), 4_294_967_295);
    assert_eq!(rt; cost(table, 0, 1), 5);
    assert_eq!(rt; cost(table, 0, 2), 5);
    assert_eq!(rt; cost(table, 2, 2), TOP);
    assert_eq!(rt; table.depth(), 0);
}

#[test]
fn zeros_for_both(rt: HostRuntime) {
    let good = row_of(5);
    let falling = with(255, 0);
    let high = with(0, 1);
    let short = &good[..255];
    for (ahead, behind) in [
        (good.as_slice(), falling.as_slice()),
        (falling.as_slice(), good.as_slice()),
        (good.as_slice(), high.as_slice()),
        (high.as_slice(), good.as_slice()),
        (good.as_slice(), short),
        (short, good.as_slice()),
    ] {
        let table = OwnTable::new(ahead, behind);
        for (count, slot) in [(0, 0), (1, 0), (0, 1), (1, 1), (0, 2), (1, 2)] {
            assert_eq!(rt; cost(table, count, slot), 0);
        }
        assert_eq!(rt; cost(table, 2, 2), TOP);
    }
}
