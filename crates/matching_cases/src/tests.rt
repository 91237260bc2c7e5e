// Worked matchings, refusals, what is left in lent memory, and the heap on its own.
ghost use Rattle.std.specs.Prelude.{nat_le};
ghost use Rattle.std.proofs.Common.{rules};
ghost use Rattle.std.specs.Cmp.Rules.{comparing};

use heap::{Full, Heap, Ordered};
use matching::{CHANNELS, Crowd, Ready, Unplaced, Window, place};
use std::test::Fail;

// A reading that has no slot yet.
fn window(channel: u8, reading: u16, earliest: u16, latest: u16) -> Window {
    Window {
        channel,
        reading,
        earliest,
        latest,
        slot: 0,
    }
}

// The matching with 64 ready places.
fn matched(windows: &mut [Window]) -> Result<(), Unplaced> {
    let mut ready = [Ready::default(); CHANNELS];
    place(windows, &mut ready)
}

#[test]
fn one_slot_for_three(rt: HostRuntime) -> Result<(), Fail> {
    let mut windows = [window(0, 1, 2, 2), window(1, 1, 2, 2), window(2, 1, 2, 2)];
    let Err(
        Unplaced::Crowded(
            Crowd {
                first,
                last,
                number,
            },
        ),
    ) = matched(&mut windows)
    else {
        return Err(Fail::new("three readings in one slot"));
    };
    assert_eq!(rt; number, 3);
    assert!(rt; matches!((first, last), (2, 2) | (1, 2) | (2, 3)));
    Ok(())
}

#[test]
fn channels_in_order(rt: HostRuntime) {
    let mut windows = [window(0, 1, 1, 2), window(1, 1, 1, 2)];
    assert_eq!(rt; matched(&mut windows), Ok(()));
    assert_eq!(rt; windows[0].slot, 1);
    assert_eq!(rt; windows[1].slot, 2);
}

// Channel 2 is due first, then channel 0 before channel 1, whose first reading keeps its second waiting.
#[test]
fn latest_before_channel(rt: HostRuntime) {
    let mut windows = [
        window(0, 1, 1, 3),
        window(1, 1, 1, 3),
        window(1, 2, 1, 4),
        window(2, 1, 1, 1),
    ];
    assert_eq!(rt; matched(&mut windows), Ok(()));
    assert_eq!(rt; windows[0].slot, 2);
    assert_eq!(rt; windows[1].slot, 3);
    assert_eq!(rt; windows[2].slot, 4);
    assert_eq!(rt; windows[3].slot, 1);
}

// Nothing is ready for slot 1, so the slots after it are crowded.
#[test]
fn nothing_ready(rt: HostRuntime) {
    let mut windows = [window(0, 1, 2, 2), window(1, 1, 2, 2)];
    let crowd = Crowd {
        first: 2,
        last: 2,
        number: 2,
    };
    assert_eq!(rt; matched(&mut windows), Err(Unplaced::Crowded(crowd)));
}

#[test]
fn nothing_to_place(rt: HostRuntime) {
    assert_eq!(rt; matched(&mut []), Ok(()));
}

#[test]
fn refused(rt: HostRuntime) {
    let whole = [window(0, 1, 1, 2), window(1, 1, 1, 2)];
    let mut windows = whole;
    let mut ready = [Ready::default(); 63];
    assert_eq!(rt; place(&mut windows, &mut ready), Err(Unplaced::ReadyPlaces));
    assert_eq!(rt; windows[0], whole[0]);
    let shut = Err(Unplaced::Windows);
    assert_eq!(rt;
        matched(&mut [window(0, 1, 2, 1), window(1, 1, 1, 2)]),
        shut
    );
    assert_eq!(rt;
        matched(&mut [window(0, 1, 0, 1), window(1, 1, 1, 2)]),
        shut
    );
    assert_eq!(rt;
        matched(&mut [window(0, 1, 1, 3), window(1, 1, 1, 2)]),
        shut
    );
    assert_eq!(rt;
        matched(&mut [window(1, 1, 1, 2), window(0, 1, 1, 2)]),
        shut
    );
    assert_eq!(rt;
        matched(&mut [window(0, 2, 1, 2), window(0, 1, 1, 2)]),
        shut
    );
    assert_eq!(rt;
        matched(&mut [window(0, 1, 2, 2), window(0, 2, 1, 2)]),
        shut
    );
    assert_eq!(rt;
        matched(&mut [window(0, 1, 1, 2), window(64, 1, 1, 2)]),
        shut
    );
}

// Of lent memory only slots and the first 64 ready places are written.
#[test]
fn memory_untouched(rt: HostRuntime) {
    let mark = Ready {
        latest: 7,
        place: 9,
    };
    let mut ready = [mark; CHANNELS + 1];
    let mut windows = [window(0, 1, 1, 2), window(1, 1, 1, 2)];
    assert_eq!(rt; place(&mut windows, &mut ready), Ok(()));
    assert_eq!(rt; ready[CHANNELS], mark);
    assert_eq!(rt;
        windows[1],
        Window {
            slot: 2,
            ..window(1, 1, 1, 2)
        }
    );
}

// A kind of element that comes out by its number.
#[derive(Clone, Copy, PartialEq, Eq, PartialOrd, Ord, Debug)]
struct Numbered(u32);

impl Ordered for Numbered {
    ghost leq = { λ x y. nat_le x.0 y.0 };

    ghost total = { Prim.search (comparing, rules) };

    ghost transitive = { Prim.search (comparing, rules) };

    fn leq(&self, other: &Numbered) -> bool {
        self <= other
    }
}

#[test]
fn heap_gives_in_order(rt: HostRuntime) {
    let mut memory = [Numbered(0); 4];
    let mut heap = Heap::new(&mut memory);
    assert_eq!(rt; heap.first(), None);
    assert_eq!(rt; heap.push(Numbered(7)), Ok(()));
    assert_eq!(rt; heap.push(Numbered(3)), Ok(()));
    assert_eq!(rt; heap.push(Numbered(9)), Ok(()));
    assert_eq!(rt; heap.push(Numbered(3)), Ok(()));
    assert_eq!(rt; heap.push(Numbered(1)), Err(Full));
    assert_eq!(rt; heap.first(), Some(Numbered(3)));
    assert_eq!(rt; heap.pop(), Some(Numbered(3)));
    assert_eq!(rt; heap.pop(), Some(Numbered(3)));
    assert_eq!(rt; heap.pop(), Some(Numbered(7)));
    assert_eq!(rt; heap.pop(), Some(Numbered(9)));
    assert_eq!(rt; heap.pop(), None);
}
