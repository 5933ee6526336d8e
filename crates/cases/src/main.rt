// Runs the stored cases. For each text that an argument names it prints the name and what `juirkes` prints for that text; for an accepted one also what
// an output that is a byte too short gives, and one of exactly its length.
#![tactic(auto)]

use answer::Answer;
use console::{INPUT_BYTES, print_converted, print_refusal, read_full};
use convert::convert;
use std::env::Env;
use std::io::{Read, Write};
use std::rt::Files;
use std::{env, fs, io};
use tabtext::sizes::MAX_BYTES;

// What stands in an output before.
const BEFORE: u8 = 170;

fn print_unchanged<W: Write>(out: &mut W, same: bool) -> io::Result<()> {
    if same {
        out.write_all(b"unchanged\n")
    } else {
        out.write_all(b"changed\n")
    }
}

// No byte from place `from` on has changed.
fn unchanged(output: &[u8], from: usize) -> bool {
    output.iter().skip(from).all(|&byte| byte == BEFORE)
}

// With the first `room` bytes of the output alone.
fn convert_within(input: &[u8], output: &mut [u8], room: usize) -> Answer {
    if output.len() < room {
        return convert(input, output);
    }
    convert(input, &mut output[..room])
}

// With `room` bytes of output: the answer, and whether the bytes after the length written are unchanged, those past the room too.
fn print_with_room<W: Write>(out: &mut W, input: &[u8], room: usize) -> io::Result<()> {
    let mut output = [BEFORE; MAX_BYTES];
    let answer = convert_within(input, &mut output, room);
    match answer {
        Ok(size) => {
            writeln!(out, "accepted\t{size}")?;
            print_unchanged(out, unchanged(&output, size))
        }
        Err(refused) => {
            print_refusal(out, refused)?;
            print_unchanged(out, unchanged(&output, 0))
        }
    }
}

fn run<W: Write>(out: &mut W, input: &[u8]) -> io::Result<()> {
    let (answer, printed) = print_converted(out, input);
    printed?;
    let Ok(size) = answer else {
        return Ok(());
    };
    if 0 < size {
        print_with_room(out, input, size - 1)?;
    }
    print_with_room(out, input, size)
}

// The text in an open file of that name.
fn run_file<W: Write, F: Read>(out: &mut W, name: &str, file: &mut F) -> io::Result<()> {
    let mut input = [0; INPUT_BYTES];
    let n = read_full(file, &mut input)?;
    writeln!(out, "{name}")?;
    run(out, &input[..n])
}

// A file that cannot be opened is named on standard error, and passed over.
fn run_argument<R: Files + Eprint, W: Write>(rt: &R, out: &mut W, name: &str) -> io::Result<()> {
    match fs::open(rt, name) {
        Ok(mut file) => run_file(out, name, &mut file),
        Err(e) => eprintln!(rt; "{name}: {e}"),
    }
}

fn run_arguments<R: Files + Eprint + Env + Alloc, W: Write>(rt: &R, out: &mut W) -> io::Result<()> {
    for name in env::args(rt)?.skip(1) {
        run_argument(rt, out, name.as_str())?;
    }
    Ok(())
}

fn main(rt: HostRuntime) -> io::Result<()> {
    run_arguments(&rt, &mut io::writer(&rt))
}
