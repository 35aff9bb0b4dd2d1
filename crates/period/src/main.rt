// Prices the sheet on standard input.
#![tactic(auto)]

use price_history::empty::EmptyHistory;
use priced_text::laws::LONGEST;
use priced_text::pricing_text::price_text;
use priced_text::refusal::PricingRefusal;
use priced_text::refusal_line::write_refusal;
use std::io;
use std::io::{Read, Write};

// No sheet is longer.
const MOST_INPUT: u64 = 4096;

fn main(rt: HostRuntime) -> io::Result<()> {
    let mut text = Vec::new(rt.alloc());
    rt.stdin().take(MOST_INPUT).read_to_end(&mut text)?;
    let mut out = [0u8; LONGEST];
    let length = match price_text(&EmptyHistory, text.as_slice(), &mut out) {
        Ok(length) => length,
        Err(PricingRefusal::Text(fault)) => write_refusal(fault, &mut out).unwrap_or(0),
        Err(PricingRefusal::OutputShort) => 0,
    };
    rt.stdout().write_all(out.get(0..length).unwrap_or(&[]))
}
