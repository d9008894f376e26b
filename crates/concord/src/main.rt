#![tactic(auto)]
// Reads lines, each a letter and a date, and writes for each its day, the weekday and the date under every letter, or the
// refusal.
mod answers;
mod calendars;
mod concordance;
mod letters;
mod lines;
mod reader;

use crate::answers::write_answer;
use crate::lines::Lines;
use std::io;
use std::io::{BufWriter, ErrorKind, Read, Write};

// How many bytes are read at a time.
const CHUNK: usize = 8_192;

// Answers each line that ends within the bytes.
fn answer_lines<W: Write>(lines: &mut Lines, bytes: &[u8], out: &mut W) -> io::Result<()> {
    for byte in bytes {
        if let Some(read) = lines.feed(*byte) {
            write_answer(out, read)?;
        }
    }
    Ok(())
}

// Answers a last line that no line feed ends, and sends off what is written.
fn finish<W: Write>(lines: &Lines, out: &mut W) -> io::Result<()> {
    if let Some(read) = lines.end() {
        write_answer(out, read)?;
    }
    out.flush()
}

// Answers every line of the input.
fn answer_all<R: Read, W: Write>(input: &mut R, out: &mut W) -> io::Result<()> {
    let mut lines = Lines::new();
    let mut chunk = [0; CHUNK];
    for _ in 0..u64::MAX {
        let count = input.read(&mut chunk)?;
        if count == 0 {
            return finish(&lines, out);
        }
        answer_lines(&mut lines, &chunk[0..count], out)?;
    }
    Err(io::Error::new(ErrorKind::TimedOut, "the input has no end"))
}

fn main(rt: HostRuntime) -> io::Result<()> {
    let mut out = BufWriter::new(rt.alloc(), rt.stdout())?;
    answer_all(&mut rt.stdin(), &mut out)
}
