// Prints the listing of the job file on standard input, over the two-sided bottom.
#![tactic(auto)]

use listing::run;
use penalty::TwoSided;
use std::io;

fn main(rt: HostRuntime) -> io::Result<()> {
    run(&rt, TwoSided)
}
