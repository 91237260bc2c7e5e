// Lines, records, and a job over too little memory, worked by hand.
use job::{Answer, FaultAt, Job, JobFault, Record, RecordFault};
use lines::{Audited, Block, LINE_BYTES, Line, Reading, ShortMemory};
use listing::answer;
use matching::Ready;
use penalty::{AbsoluteDeviation, TOP};
use sequencing::Outcome;
use std::test::Fail;
use test_support::EMPTY;

// The line, written over 96 bytes of another kind, is this text, and the bytes after it are as they were.
fn is_written(line: Line, text: &str) -> bool {
    let mut memory = [b'*'; LINE_BYTES];
    let Ok(length) = line.write(&mut memory) else {
        return false;
    };
    let (written, rest) = memory.split_at(length);
    written == text.as_bytes() && rest.iter().all(|&byte| byte == b'*')
}

#[test]
fn answers_in_lines(rt: HostRuntime) {
    let least = Line::Least {
        least: 2,
        figure: 40,
    };
    assert!(rt; is_written(least, "LEAST 2 FIGURE 40\n"));
    assert!(rt; is_written(Line::NoLeast, "NONE\n"));
    let within = Line::Within {
        bound: TOP - 1,
        largest: 0,
    };
    assert!(rt; is_written(within, "WITHIN 1099511627774 LARGEST 0\n"));
    assert!(rt; is_written(Line::Over { bound: 10 }, "OVER 10\n"));
    let reading = Reading {
        channel: 63,
        reading: 4096,
        earliest: 1,
        latest: 20,
        slot: 300,
    };
    assert!(rt; is_written(Line::Reading(reading), "63 4096 1 20 300\n"));
    let fault = Line::Fault {
        number: 13,
        layer: 1,
        offset: 0,
    };
    assert!(rt; is_written(fault, "FAULT 13 1 0\n"));
    let largest = Audited::Largest {
        cost: u64::MAX,
        slot: 65535,
        channel: 255,
    };
    assert!(rt;
        is_written(
            Line::Audited(largest),
            "LARGEST 18446744073709551615 MOMENT 65535 255\n"
        )
    );
}

#[test]
fn blocks_in_lines(rt: HostRuntime) {
    let moment = Block::Moment {
        slot: 1,
        channel: 0,
    };
    assert!(rt; is_written(Line::Blocked(moment), "MOMENT 1 0\n"));
    let shut = Block::Shut {
        channel: 7,
        reading: 2,
        earliest: 5,
        latest: 4,
    };
    assert!(rt; is_written(Line::Blocked(shut), "SHUT 7 2 5 4\n"));
    assert!(rt; is_written(Line::Below(Some(shut)), "BELOW SHUT 7 2 5 4\n"));
    let crowd = Block::Crowd {
        first: 2,
        last: 3,
        number: 3,
    };
    assert!(rt; is_written(Line::Below(Some(crowd)), "BELOW CROWD 2 3 3\n"));
    assert!(rt; is_written(Line::Below(None), "BELOW NOTHING\n"));
}

#[test]
fn short_memory(rt: HostRuntime) {
    let mut memory = [b'*'; LINE_BYTES - 1];
    assert_eq!(rt; Line::NoLeast.write(&mut memory), Err(ShortMemory));
    assert!(rt; memory.iter().all(|&byte| byte == b'*'));
    assert_eq!(rt; ShortMemory.number(), 18);
}

#[test]
fn records(rt: HostRuntime) {
    let add = Record::Add {
        channel: 5,
        readings: 258,
    };
    assert_eq!(rt; first(b"\x43\x05\x01\x02"), Ok(Some((add, 0))));
    let weight = Record::Weight {
        channel: 64,
        weight: 1000,
    };
    assert_eq!(rt; first(b"\x57\x40\x03\xe8\x42"), Ok(Some((weight, 1))));
    let tolerance = Record::Tolerance {
        tolerance: 0x0102_0304,
    };
    assert_eq!(rt; first(b"\x54\x01\x02\x03\x04"), Ok(Some((tolerance, 0))));
    let limit = Record::Limit { limit: 1 };
    assert_eq!(rt; first(b"\x45\x00\x00\x00\x01\x00"), Ok(Some((limit, 1))));
    let list = Record::List {
        bound: 0x0102_0304_0506_0708,
    };
    assert_eq!(rt;
        first(b"\x4c\x01\x02\x03\x04\x05\x06\x07\x08"),
        Ok(Some((list, 0)))
    );
    assert_eq!(rt; first(b"\x42\x42"), Ok(Some((Record::Best, 1))));
    assert_eq!(rt; first(b""), Ok(None));
    assert_eq!(rt; first(b"\x44\x00\x00\x00"), Err(RecordFault::UnknownKind));
    assert_eq!(rt; first(b"\x57\x40\x03"), Err(RecordFault::CutShort));
    assert_eq!(rt;
        first(b"\x4c\x01\x02\x03\x04\x05\x06\x07"),
        Err(RecordFault::CutShort)
    );
}

// The first record of bytes, and how many bytes come after it.
fn first(bytes: &[u8]) -> Result<Option<(Record, usize)>, RecordFault> {
    let Some((record, rest)) = Record::split_first(bytes)? else {
        return Ok(None);
    };
    Ok(Some((record, rest.len())))
}

#[test]
fn longest_and_too_long(rt: HostRuntime) -> Result<(), Fail> {
    // Settings of 5 bytes each, and a best: 4,096 bytes, and with one byte more 4,097.
    let mut job = [0x54, 0, 0, 0, 0].repeat(rt.alloc(), 819)?;
    job.push(0x42)?;
    let mut out = Vec::new(rt.alloc());
    answer(rt.alloc(), AbsoluteDeviation, job.as_slice(), &mut out)?;
    assert_eq!(rt; out.as_slice(), b"FAULT 6 3 4095\n".as_slice());
    job.push(0x42)?;
    out.clear();
    answer(rt.alloc(), AbsoluteDeviation, job.as_slice(), &mut out)?;
    assert_eq!(rt; out.as_slice(), b"FAULT 13 1 0\n".as_slice());
    Ok(())
}

#[test]
fn too_little_memory(rt: HostRuntime) -> Result<(), Fail> {
    let mut windows = [EMPTY; 2];
    let mut ready = [NOT_READY; 64];
    let mut list = [0; 2];
    let Ok(mut job) = Job::new(AbsoluteDeviation, b"\x43\x05\x00\x02\x42") else {
        return Err(Fail::new("a job that is refused"));
    };
    assert_eq!(rt; job.next(&mut [], &mut [], &mut []), Ok(Some(Answer::Done)));
    let short = FaultAt {
        fault: JobFault::Roster(roster::Refusal::Sequencing(sequencing::Refusal::TooLittleMemory)),
        offset: 4,
    };
    // The fault changes nothing, so that the same question can be asked again.
    assert_eq!(rt;
        job.next(&mut windows[..1], &mut ready, &mut list),
        Err(short)
    );
    assert_eq!(rt;
        job.next(&mut windows, &mut ready[..63], &mut list),
        Err(short)
    );
    let Ok(Some(Answer::Best(best))) = job.next(&mut windows, &mut ready, &mut list) else {
        return Err(Fail::new("no best"));
    };
    let outcome = Outcome::Least {
        least: 0,
        below: None,
    };
    assert_eq!(rt; best.outcome, outcome);
    assert_eq!(rt; list, [5, 5]);
    assert_eq!(rt; job.next(&mut windows, &mut ready, &mut list), Ok(None));
    Ok(())
}

// What stands in a ready place before it is used.
const NOT_READY: Ready = Ready {
    latest: 0,
    place: 0,
};
