// Makes a thousand sheets, writes and reads each, and writes it again.
#![tactic(auto)]

mod generator;
mod numbers;
mod trial;

use crate::trial::try_all;
use std::io;

fn main(rt: HostRuntime) -> io::Result<()> {
    let tally = try_all();
    println!(rt; "{} sheets written and read", tally.sheets)?;
    println!(rt; "{} written again as the same text", tally.same)?;
    println!(rt; "{} bytes", tally.bytes)
}
