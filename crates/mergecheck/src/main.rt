// Reads from standard input a letter that names the question (reply::Question) and a certificate, one byte more than a file may have, and prints the answer.
#![tactic(auto)]

use reply::{Question, read_full};
use std::io::{self, Write};

fn main(rt: HostRuntime) -> io::Result<()> {
    let mut input = rt.stdin();
    let mut letter = [0u8; 1];
    read_full(&mut input, &mut letter)?;
    let mut file = [0u8; 16385];
    let n = read_full(&mut input, &mut file)?;
    let mut out = [0u8; 128];
    let k = reply::ask(Question::from(letter[0]), &file[..n], &mut out);
    rt.stdout().write_all(&out[..k])
}
