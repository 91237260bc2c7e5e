// The programs: a job file is read, and its listing is written.
ghost use Rattle.std.specs.Prelude.{List, IfSome, OnOk, flat_map};
ghost use Rattle.std.specs.Io.KnownBytes.{Appends};
ghost use Rattle.lines.specs.Lines.{text};
ghost use Rattle.lines.specs.declared.line.Line.{Line as LineOf};
ghost use Rattle.listing.specs.Listing.{IsListing};

use crate::printing::print_job;
use job::JOB_BYTES;
use penalty::Penalty;
use std::alloc::Global;
use std::io;
use std::io::{BufWriter, Read, Write};

/// Reads a job file, and writes its listing over a bottom.
pub fn answer<B: Penalty + Copy, R: Read + Drop, W: Write>(
    heap: Global,
    bottom: B,
    input: R,
    out: &mut W,
) -> io::Result<()>
    ensures { OnOk result (IfSome (R.remaining input) (λ file. (lines : List LineOf) × IsListing (B.cost bottom) file lines
        × Appends (W.contents out.old) (W.contents out.new) (flat_map text lines))) }
{
    let mut file = Vec::new(heap);
    // One byte more than a job file may have, so that a longer one is seen to be too long.
    input.take(JOB_BYTES as u64 + 1).read_to_end(&mut file)?;
    print_job(bottom, &file, out)
}

/// The same from standard input to standard output.
pub fn run<R: Input + Print + AllocGlobal, B: Penalty + Copy>(rt: &R, bottom: B) -> io::Result<()> {
    let mut out = BufWriter::new(rt.alloc(), io::writer(rt))?;
    answer(rt.alloc(), bottom, rt.reader(), &mut out)?;
    out.flush()
}
