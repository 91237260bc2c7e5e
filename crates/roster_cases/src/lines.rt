// The lines of the replies.
use matching::{Crowd, Window};
use penalty::{CHANNELS, LIMIT, Penalty, TOP};
use roster::{Answer, Call, Refusal};
use round::Readings;
use sequencing::{Best, Block, Listed, Outcome};
use std::fmt::Write;
use test_support::{EMPTY, is_crowded};
use windows::{Moment, fill};

/// What the line of a reply needs beside it: the penalty, the channels before the call, and the memory after it.
#[derive(Clone, Copy)]
pub struct Context<'a, P> {
    pub penalty: &'a P,
    pub readings: &'a Readings,
    pub windows: &'a [Window],
    pub list: &'a [u8],
}

impl<'a, P: Penalty> Context<'a, P> {
    /// Writes the line of a reply to a call.
    pub fn write_reply(
        &self,
        line: &mut String,
        call: Call,
        reply: Result<Answer, Refusal>,
    ) -> anyhow::Result<()> {
        match reply {
            Ok(Answer::Done) => write!(line, "DONE")?,
            Ok(Answer::Listed(Listed::Within)) => {
                write!(line, "WITHIN")?;
                self.write_list(line)?;
            }
            Ok(Answer::Listed(Listed::Over(block))) => {
                write!(line, "OVER")?;
                if let Call::List { bound, .. } = call {
                    self.write_block(line, bound, block)?;
                }
            }
            Ok(Answer::Best(best)) => self.write_best(line, best)?,
            Err(refusal) => write!(line, "REFUSED {}", refusal.number())?,
        }
        writeln!(line)?;
        Ok(())
    }

    // Writes the answer of best.
    fn write_best(&self, line: &mut String, best: Best) -> anyhow::Result<()> {
        let Best {
            total,
            channels,
            ..
        } = best;
        match best.outcome {
            Outcome::Least { least, below } => {
                write!(line, "LEAST {least} TOTAL {total} CHANNELS {channels}")?;
                self.write_list(line)?;
                write!(line, " BELOW")?;
                match below {
                    Some(block) => self.write_block(line, least.saturating_sub(1), block)?,
                    None => write!(line, " NOTHING")?,
                }
            }
            Outcome::NoLeast(block) => {
                write!(line, "NONE TOTAL {total} CHANNELS {channels}")?;
                self.write_block(line, TOP - 1, block)?;
            }
        }
        Ok(())
    }

    // Writes the channels by slot, and the windows with their slots.
    fn write_list(&self, line: &mut String) -> anyhow::Result<()> {
        let total = usize::from(self.readings.total());
        for channel in self.list.iter().take(total) {
            write!(line, " {channel}")?;
        }
        for window in self.windows.iter().take(total) {
            let Window {
                channel,
                reading,
                earliest,
                latest,
                slot,
            } = *window;
            write!(line, " {channel}:{reading}:{earliest}-{latest}@{slot}")?;
        }
        Ok(())
    }

    // Writes a block at a bound.
    fn write_block(&self, line: &mut String, bound: u64, block: Block) -> anyhow::Result<()> {
        match block {
            Block::Blocked(Moment { slot, channel }) => write!(line, " MOMENT {slot} {channel}")?,
            Block::Shut(window) => {
                let Window {
                    channel,
                    reading,
                    earliest,
                    latest,
                    slot,
                } = window;
                write!(line, " SHUT {channel} {reading} {earliest} {latest} {slot}")?;
            }
            Block::Crowded(crowd) if self.is_crowd(bound, crowd) => write!(line, " CROWD")?,
            Block::Crowded(crowd) => {
                let Crowd {
                    first,
                    last,
                    number,
                } = crowd;
                write!(line, " NO CROWD {first} {last} {number}")?;
            }
        }
        Ok(())
    }

    // Whether slots are crowded by the windows at a bound.
    fn is_crowd(&self, bound: u64, crowd: Crowd) -> bool {
        let mut places = [EMPTY; LIMIT as usize];
        let total = usize::from(self.readings.total());
        fill(self.penalty, self.readings, bound, &mut places).is_ok()
            && is_crowded(&places[..total], crowd)
    }
}

/// Writes the line of the channels with their readings.
pub fn write_channels(line: &mut String, readings: &Readings) -> anyhow::Result<()> {
    write!(line, "CHANNELS")?;
    for channel in 0..CHANNELS as u8 {
        let n = readings.of(channel);
        if n > 0 {
            write!(line, " {channel}:{n}")?;
        }
    }
    writeln!(line)?;
    Ok(())
}
