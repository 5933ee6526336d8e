// Converts the text on standard input: prints the lex basis and its standard monomials, or the refusal.
#![tactic(auto)]

use console::{INPUT_BYTES, print_converted, read_full};
use std::io;

fn main(rt: HostRuntime) -> io::Result<()> {
    let mut input = [0; INPUT_BYTES];
    let n = read_full(&mut rt.stdin(), &mut input)?;
    print_converted(&mut io::writer(&rt), &input[..n]).1
}
