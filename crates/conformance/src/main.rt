//! A caller of this repository's public calls, on cases from outside: each line of the standard input is answered by one line.
#![tactic(auto)]

mod answer;
mod bits;
mod case;
mod coder;
mod dpx;
mod ebml;
mod flac;
mod frames;
mod names;
mod outline;
mod pack;
mod params;
mod parse;
mod predict;
mod restore;
mod runs;
mod shelf;
mod side;
mod slices;
mod stop;
mod waves;
mod words;

use std::io::{self, BufRead, BufReader, BufWriter, Write};

fn main(rt: HostRuntime) -> io::Result<()> {
    let mut out = BufWriter::new(rt.alloc(), io::writer(&rt))?;
    for line in BufReader::new(rt.alloc(), rt.reader())?.lines(rt.alloc()) {
        let answer = case::answer_of(&rt, rt.alloc(), line?.as_str())?;
        writeln!(out, "{answer}")?;
    }
    out.flush()
}
