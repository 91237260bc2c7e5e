// Audits the scan list on standard input under the absolute deviation, and prints one line.
#![tactic(auto)]

use report::{LINE_BYTES, report_absolute};
use std::io;
use std::io::{Read, Write};

fn main(rt: HostRuntime) -> io::Result<()> {
    let mut input = Vec::new(rt.alloc());
    rt.stdin().read_to_end(&mut input)?;
    let mut line = [0; LINE_BYTES];
    let length = report_absolute(&input, &mut line);
    rt.stdout().write_all(&line[..length])
}
