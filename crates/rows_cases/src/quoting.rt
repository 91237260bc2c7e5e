// The lines of a quote, from its draft on.
use crate::query::Query;
use lines::LINE_BYTES;
use penalty::Penalty;
use quotes::{Draft, Issued};
use sequencing::Best;
use std::alloc::Global;
use std::fmt::Write;

// Writes the quote of a best, and what is refused on the way; a draft that comes back is issued under 1, and a quote that comes
// back is printed in enough memory.
pub fn write_quote<P: Penalty>(
    heap: Global,
    lines: &mut String,
    best: Best,
    penalty: &P,
    query: &Query,
) -> anyhow::Result<()> {
    let draft = match Draft::new(best, penalty) {
        Ok(draft) => draft,
        Err(refusal) => {
            writeln!(lines, "DRAFT {}", refusal.number())?;
            return Ok(());
        }
    };
    match draft.issue(query.serial) {
        Ok(issued) => write_issued(heap, lines, issued, usize::from(query.line)),
        Err(returned) => {
            writeln!(lines, "ISSUE {}", returned.refusal.number())?;
            match returned.quote.issue(1) {
                Ok(issued) => write_issued(heap, lines, issued, usize::from(query.line)),
                Err(_again) => Ok(()),
            }
        }
    }
}

// Writes the line of an issued quote.
fn write_issued(
    heap: Global,
    lines: &mut String,
    issued: Issued,
    room: usize,
) -> anyhow::Result<()> {
    let mut memory = vec![in heap; b'*'; room]?;
    match issued.print(&mut memory) {
        Ok(length) => write_bytes(lines, &memory, length),
        Err(returned) => {
            writeln!(lines, "PRINT {}", returned.refusal.number())?;
            let mut memory = [b'*'; LINE_BYTES];
            match returned.quote.print(&mut memory) {
                Ok(length) => write_bytes(lines, &memory, length),
                Err(_again) => Ok(()),
            }
        }
    }
}

// Writes the first bytes of the memory.
fn write_bytes(lines: &mut String, memory: &[u8], length: usize) -> anyhow::Result<()> {
    let line = memory.get(..length).unwrap_or_default();
    write!(lines, "{}", str::from_utf8(line)?)?;
    Ok(())
}
