// Reads certificates packed one behind the other, each after its length in two bytes, the higher first, and prints for every one the answers to all
// three: the whole verdict, the first question, the second.
#![tactic(auto)]

use reply::{Question, read_full};
use std::io::{self, Read, Write};

// The most certificates in one run: nothing says that the input ends.
const MOST: u32 = 1000000;

// Prints the answer to a question.
fn print<W: Write>(output: &mut W, question: Question, file: &[u8]) -> io::Result<()> {
    let mut out = [0u8; 128];
    let k = reply::ask(question, file, &mut out);
    output.write_all(&out[..k])
}

// Prints the whole verdict, then the answers to the first and the second question.
fn print_all<W: Write>(output: &mut W, file: &[u8]) -> io::Result<()> {
    print(output, Question::Verdict, file)?;
    print(output, Question::Sharing, file)?;
    print(output, Question::Closure, file)
}

// Answers the next certificate; false where there is none, or where it is cut off.
fn next<R: Read, W: Write>(input: &mut R, output: &mut W, file: &mut [u8]) -> io::Result<bool> {
    let mut head = [0u8; 2];
    if read_full(input, &mut head)? < 2 {
        return Ok(false);
    }
    let n = u16::from_be_bytes(head) as usize;
    if file.len() < n {
        return Ok(false);
    }
    if read_full(input, &mut file[..n])? < n {
        return Ok(false);
    }
    print_all(output, &file[..n])?;
    Ok(true)
}

fn main(rt: HostRuntime) -> io::Result<()> {
    let mut input = rt.stdin();
    let mut output = rt.stdout();
    let mut file = [0u8; 65536];
    for _ in 0..MOST {
        if !next(&mut input, &mut output, &mut file)? {
            break;
        }
    }
    Ok(())
}
