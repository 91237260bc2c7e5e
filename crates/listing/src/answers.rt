// The lines of readings, blocks and faults.
ghost use Rattle.std.specs.Prelude.{◌≡◌, option_map};
ghost use Rattle.listing.specs.Answers.{block_line as line_of_block, fault_line as line_of_fault};
ghost use Rattle.listing.specs.Rows.{reading_line as line_of_reading};

use job::FaultAt;
use lines::{Line, Reading};
use matching::Window;
use sequencing::Block;

// The line of a reading with its window and its slot.
pub(crate) fn reading_line(window: &Window) -> Line
    ensures { result ≡ line_of_reading window.now }
{
    Line::Reading(Reading {
        channel: window.channel,
        reading: window.reading,
        earliest: window.earliest,
        latest: window.latest,
        slot: window.slot,
    })
}

// The line of a fault.
pub(crate) fn fault_line(fault: FaultAt) -> Line
    ensures { result ≡ line_of_fault fault }
{
    Line::Fault {
        number: fault.fault.number(),
        layer: fault.fault.layer(),
        offset: fault.offset,
    }
}

// The line of a block.
pub(crate) fn block_line(block: Block) -> lines::Block
    ensures { result ≡ line_of_block block }
{
    match block {
        Block::Blocked(moment) => lines::Block::Moment {
            slot: moment.slot,
            channel: moment.channel,
        },
        Block::Shut(window) => lines::Block::Shut {
            channel: window.channel,
            reading: window.reading,
            earliest: window.earliest,
            latest: window.latest,
        },
        Block::Crowded(crowd) => lines::Block::Crowd {
            first: crowd.first,
            last: crowd.last,
            number: crowd.number,
        },
    }
}

// The block below a least, nothing where there is none.
// No `map`: a clause would say of its result only what a call of `block_line` answered.
pub(crate) fn below_line(block: Option<Block>) -> Option<lines::Block>
    ensures { result ≡ option_map line_of_block block }
{
    Some(block_line(block?))
}
