// The lines of bests and rows.
use rows::Refusal;
use sequencing::{Best, Outcome};
use std::fmt::Write;

// Writes what a best answers, with the channels by slot.
pub fn write_best(
    lines: &mut String,
    word: &str,
    answer: Result<Best, Refusal>,
    list: &[u8],
) -> anyhow::Result<()> {
    write!(lines, "{word}")?;
    match answer {
        Ok(best) => {
            match best.outcome {
                Outcome::Least { least, .. } => write!(lines, " LEAST {least}")?,
                Outcome::NoLeast(_block) => write!(lines, " NONE")?,
            }
            write!(lines, " TOTAL {} CHANNELS {}", best.total, best.channels)?;
            if matches!(best.outcome, Outcome::Least { .. }) {
                for channel in list.iter().take(usize::from(best.total)) {
                    write!(lines, " {channel}")?;
                }
            }
        }
        Err(refusal) => write!(lines, " REFUSED {}", refusal.number())?,
    }
    writeln!(lines)?;
    Ok(())
}

// Writes the numbers of a row that are not 0, with their places.
pub fn write_row(lines: &mut String, row: &[u16]) -> anyhow::Result<()> {
    write!(lines, "ROW")?;
    for (channel, number) in row.iter().enumerate() {
        if *number > 0 {
            write!(lines, " {channel}:{number}")?;
        }
    }
    writeln!(lines)?;
    Ok(())
}
