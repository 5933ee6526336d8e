// What the programs share: the size of an input, the reading of a text, and the printing of an answer.
#![tactic(auto)]

ghost use Rattle.std.specs.Prelude.{◌≡◌, suc, length};
ghost use Rattle.std.specs.Io.{ReadsAtMost};
ghost use Rattle.lists.specs.Lists.{Bytes};
ghost use Rattle.answer.specs.Outcomes.{Judged};
ghost use Rattle.answer.specs.Answers.{pair, returned};
ghost use Rattle.tabtext.specs.Sizes.{most_bytes};
ghost use Rattle.convert.specs.Contract.{Meets};
ghost use Rattle.convert.specs.Outcome.{Outcome};

use answer::{Answer, Refused};
use convert::convert;
use std::io;
use std::io::{Read, Write};
use tabtext::sizes::MAX_BYTES;

// One byte more than an input may have, so that a longer one is told.
pub const INPUT_BYTES: usize = MAX_BYTES + 1;

// That it is so many.
pub fn input_bytes() -> usize
    ensures { result ≡ suc most_bytes }
{
    INPUT_BYTES
}

// Reads until the buffer is full or the input ends: how many bytes stand at the front of the buffer.
pub fn read_full<R: Read>(reader: &mut R, buffer: &mut [u8]) -> io::Result<usize>
    ensures { ReadsAtMost result buffer.new }
{
    let mut done: usize = 0;
    while done < buffer.len() {
        let n = reader.read(&mut buffer[done..])?;
        if n == 0 {
            break;
        }
        done += n;
    }
    Ok(done)
}

pub fn print_refusal<W: Write>(out: &mut W, refused: Refused) -> io::Result<()> {
    writeln!(out, "{refused}")
}

// The answer for a text and an output of 65,536 bytes, and so never 16. What is to be printed is left in that output.
pub fn judge(input: &[u8], output: &mut [u8]) -> Answer
    requires { most_bytes ≡ length output.old }
    ensures meets { Meets input.now output.old output.new result }
    ensures answered { ((o : Judged Bytes) × Outcome input.now most_bytes o × (pair result ≡ returned o)) × (¬ ((pair result).0 ≡ 16)) }
{
    convert(input, output)
}

// Prints the output for a text, or its refusal: the answer, which is that of `judge`, and whether all of it was printed.
pub fn print_converted<W: Write>(out: &mut W, input: &[u8]) -> (Answer, io::Result<()>)
    ensures { ((o : Judged Bytes) × Outcome input.now most_bytes o × (pair result.0 ≡ returned o)) × (¬ ((pair result.0).0 ≡ 16)) }
{
    let mut output = [0; MAX_BYTES];
    let answer = judge(input, &mut output);
    let printed = match answer {
        Ok(size) => out.write_all(&output[..size]),
        Err(refused) => print_refusal(out, refused),
    };
    (answer, printed)
}
