// The listing of a job written to whatever takes bytes.
ghost use Rattle.std.specs.Prelude.{List, OnOk, flat_map};
ghost use Rattle.std.specs.Io.KnownBytes.{Appends};
ghost use Rattle.lines.specs.Lines.{text};
ghost use Rattle.lines.specs.declared.line.Line.{Line as LineOf};
ghost use Rattle.listing.specs.Listing.{IsListing};

use crate::state::Listing;
use penalty::Penalty;
use std::io;
use std::io::Write;

/// Writes the listing of a job file over a bottom.
pub fn print_job<B: Penalty + Copy, W: Write>(bottom: B, file: &[u8], out: &mut W) -> io::Result<()>
    ensures { OnOk result ((lines : List LineOf) × IsListing (B.cost bottom) file.now lines
        × Appends (W.contents out.old) (W.contents out.new) (flat_map text lines)) }
{
    let mut listing = Listing::new(bottom, file);
    while let Some(line) = listing.next() {
        line.print(out)?;
    }
    Ok(())
}
