// Quotes worked by hand: figures, lines, and what comes back where a call is refused.
use crate::{Draft, Issued, Refusal, Returned, figure};
use lines::LINE_BYTES;
use matching::Crowd;
use penalty::{AbsoluteDeviation, Layers, TOP};
use sequencing::{Best, Block, Outcome};
use std::test::Fail;

// The quote, printed over 96 bytes of another kind, is this text, and the bytes after it are as they were.
fn is_printed(issued: Issued, text: &str) -> bool {
    let mut memory = [b'*'; LINE_BYTES];
    let Ok(length) = issued.print(&mut memory) else {
        return false;
    };
    let (printed, rest) = memory.split_at(length);
    printed == text.as_bytes() && rest.iter().all(|&byte| byte == b'*')
}

#[test]
fn figures(rt: HostRuntime) {
    assert_eq!(rt; figure(0, 1), Some(0));
    assert_eq!(rt; figure(1, 3), Some(34));
    assert_eq!(rt; figure(2, 3), Some(67));
    assert_eq!(rt; figure(2, 5), Some(40));
    assert_eq!(rt; figure(3, 2), Some(150));
    assert_eq!(rt; figure(160, 2), Some(8_000));
    assert_eq!(rt; figure(TOP - 1, 1), Some(109_951_162_777_400));
    assert_eq!(rt; figure(TOP - 1, 4_096), Some(26_843_545_600));
    assert_eq!(rt; figure(1, 0), None);
    assert_eq!(rt; figure(u64::MAX / 100, 1), Some(18_446_744_073_709_551_600));
    assert_eq!(rt; figure(u64::MAX / 100 + 1, 1), None);
}

#[test]
fn printed(rt: HostRuntime) -> Result<(), Fail> {
    let best = Best {
        total: 3,
        channels: 2,
        outcome: Outcome::Least {
            least: 1,
            below: None,
        },
    };
    let issued = Draft::new(best, &AbsoluteDeviation)?.issue(7)?;
    assert!(rt;
        is_printed(
            issued,
            "QUOTE 7 LEAST 1 TOTAL 3 CHANNELS 2 LAYERS 0 FIGURE 34\n"
        )
    );
    let longest = Best {
        total: 1,
        channels: 64,
        outcome: Outcome::Least {
            least: TOP - 1,
            below: None,
        },
    };
    let pile = Layers::new().over(AbsoluteDeviation);
    let issued = Draft::new(longest, &pile)?.issue(999_999)?;
    assert!(rt;
        is_printed(
            issued,
            "QUOTE 999999 LEAST 1099511627774 TOTAL 1 CHANNELS 64 LAYERS 3 FIGURE 109951162777400\n"
        )
    );
    Ok(())
}

#[test]
fn refused_draft(rt: HostRuntime) -> Result<(), Fail> {
    let crowd = Crowd {
        first: 1,
        last: 1,
        number: 2,
    };
    let none = Best {
        total: 2,
        channels: 2,
        outcome: Outcome::NoLeast(Block::Crowded(crowd)),
    };
    let Err(refusal) = Draft::new(none, &AbsoluteDeviation) else {
        return Err(Fail::new("a draft without a least"));
    };
    assert_eq!(rt; refusal.number(), 20);
    Ok(())
}

#[test]
fn refused_number_and_memory(rt: HostRuntime) -> Result<(), Fail> {
    let best = Best {
        total: 2,
        channels: 2,
        outcome: Outcome::Least {
            least: 1,
            below: None,
        },
    };
    let draft = Draft::new(best, &AbsoluteDeviation)?;
    let Err(Returned { refusal, quote }) = draft.issue(0) else {
        return Err(Fail::new("a quote under 0"));
    };
    assert_eq!(rt; refusal.number(), 19);
    let Err(Returned { refusal, quote }) = quote.issue(1_000_000) else {
        return Err(Fail::new("a quote under 1,000,000"));
    };
    assert_eq!(rt; refusal, Refusal::SerialOutOfRange);
    let mut memory = [b'*'; LINE_BYTES];
    let Err(Returned { refusal, quote }) = quote.issue(1)?.print(&mut memory[..LINE_BYTES - 1])
    else {
        return Err(Fail::new("a quote printed in 95 bytes"));
    };
    assert_eq!(rt; refusal.number(), 18);
    assert!(rt; memory.iter().all(|&byte| byte == b'*'));
    assert!(rt;
        is_printed(
            quote,
            "QUOTE 1 LEAST 1 TOTAL 2 CHANNELS 2 LAYERS 0 FIGURE 50\n"
        )
    );
    Ok(())
}
