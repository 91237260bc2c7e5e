// Prints the listing of the job file on standard input, over the absolute deviation.
#![tactic(auto)]

use listing::run;
use penalty::AbsoluteDeviation;
use std::io;

fn main(rt: HostRuntime) -> io::Result<()> {
    run(&rt, AbsoluteDeviation)
}
