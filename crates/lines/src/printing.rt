// A line written to whatever takes bytes.
ghost use Rattle.std.specs.Prelude.{OnOk};
ghost use Rattle.std.specs.Io.KnownBytes.{Appends};
ghost use Rattle.lines.specs.Lines.{text as text_of};

use crate::line::{LINE_BYTES, Line};
use std::io;
use std::io::Write;

impl Line {
    /// Writes the line to a writer.
    pub fn print<W: Write>(self, out: &mut W) -> io::Result<()>
        ensures { OnOk result (Appends (W.contents out.old) (W.contents out.new) (text_of self)) }
    {
        let mut memory = [0; LINE_BYTES];
        let length = self.write(&mut memory).unwrap();
        out.write_all(&memory[..length])
    }
}
