// Prints the listings of many jobs, case after case on standard input.
#![tactic(auto)]

#[cfg(test)]
mod tests;

use cases::{Case, Cases};
use listing::print_job;
use penalty::{AbsoluteDeviation, TwoSided};
use std::io;
use std::io::{BufWriter, Read, Write};

// A job file, and which bottom it is about.
#[derive(Clone, Copy)]
struct Query<'a> {
    two_sided: bool,
    job: &'a [u8],
}

impl<'a> Case<'a> for Query<'a> {
    fn split_first(bytes: &'a [u8]) -> Option<(Query<'a>, &'a [u8])> {
        let [bottom, length1, length0, rest @ ..] = bytes else {
            return None;
        };
        let length = usize::from(u16::from_be_bytes([*length1, *length0]));
        let (job, rest) = rest.split_at_checked(length)?;
        let query = Query {
            two_sided: *bottom == 1,
            job,
        };
        Some((query, rest))
    }
}

fn main(rt: HostRuntime) -> io::Result<()> {
    let mut input = Vec::new(rt.alloc());
    rt.stdin().read_to_end(&mut input)?;
    let mut out = BufWriter::new(rt.alloc(), io::writer(&rt))?;
    for query in Cases::<Query>::new(&input) {
        writeln!(out, "JOB {} {}", u8::from(query.two_sided), query.job.len())?;
        if query.two_sided {
            print_job(TwoSided, query.job, &mut out)?;
        } else {
            print_job(AbsoluteDeviation, query.job, &mut out)?;
        }
    }
    out.flush()
}
