// What is answered about bridges, worked by hand.
use crate::answers::answer;
use crate::input::Bridge;
use penalty::{AbsoluteDeviation, Layered, Penalty, Stop, Threshold};
use std::alloc::Global;
use std::test::Fail;

// The text that is answered about the bridge of these bytes.
fn answered<P: Penalty>(heap: Global, penalty: &P, bytes: &[u8]) -> Result<Vec<u8>, Fail> {
    let Some(bridge) = Bridge::parse(bytes) else {
        return Err(Fail::new("no bridge"));
    };
    let mut out = Vec::new(heap);
    match answer(penalty, bridge, &mut out) {
        Ok(()) => Ok(out),
        Err(_error) => Err(Fail::new("no answer")),
    }
}

#[test]
fn refused_parts(rt: HostRuntime) -> Result<(), Fail> {
    let penalty = AbsoluteDeviation;
    let none = answered(rt.alloc(), &penalty, &[0, 0, 0, 7, 64, 0, 1])?;
    assert!(rt; none.as_slice() == "REFUSED 6\n".as_bytes());
    // readings 0 in the trial, and serial number 0
    let one = answered(rt.alloc(), &penalty, &[0, 0, 0, 0, 0, 0, 0, 0, 0, 1])?;
    assert!(rt;
        one.as_slice() == "LEAST 0 FIGURE 0\n0 1 1 1 1\nREFUSED 2\nREFUSED 19\n".as_bytes()
    );
    assert!(rt; Bridge::parse(&[0; 6]).is_none());
    Ok(())
}

#[test]
fn no_least(rt: HostRuntime) -> Result<(), Fail> {
    let limit = Threshold::LEAST;
    let penalty = Layered::over(AbsoluteDeviation, Stop { limit });
    let bytes = [0, 0, 0, 7, 0, 0, 1, 0, 0, 1, 1, 0, 1];
    let text = answered(rt.alloc(), &penalty, &bytes)?;
    assert!(rt; text.as_slice() == "NONE\nNONE\nREFUSED 20\n".as_bytes());
    Ok(())
}

#[test]
fn channels_twice_and_above_the_limit(rt: HostRuntime) -> Result<(), Fail> {
    // channel 64 with 9 readings, channel 0 with 5 and then with 1, and a byte that is left
    let bytes = [0, 0, 0, 1, 0, 0, 2, 64, 0, 9, 0, 0, 5, 0, 0, 1, 7];
    let text = answered(rt.alloc(), &AbsoluteDeviation, &bytes)?;
    let wanted =
        "LEAST 0 FIGURE 0\n0 1 1 1 1\nLEAST 0 FIGURE 0\nQUOTE 1 LEAST 0 TOTAL 1 CHANNELS 1 LAYERS 0 FIGURE 0\n";
    assert!(rt; text.as_slice() == wanted.as_bytes());
    Ok(())
}

#[test]
fn readings_by_their_slots(rt: HostRuntime) -> Result<(), Fail> {
    // readings 3, 1 and 1: the reading in slot 4 may stand earlier than that in slot 3; and channel 64 with 9 readings, at the end
    let bytes = [0, 0, 0, 7, 0, 0, 3, 0, 0, 3, 1, 0, 1, 2, 0, 1, 64, 0, 9];
    let text = answered(rt.alloc(), &AbsoluteDeviation, &bytes)?;
    let wanted =
        "LEAST 3 FIGURE 60\n0 1 1 2 1\n1 1 2 4 2\n0 2 3 3 3\n2 1 2 4 4\n0 3 4 5 5\nLEAST 3 FIGURE 60\nQUOTE 7 LEAST 3 TOTAL 5 CHANNELS 3 LAYERS 0 FIGURE 60\n";
    assert!(rt; text.as_slice() == wanted.as_bytes());
    Ok(())
}
