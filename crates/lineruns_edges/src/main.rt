// Feeds `lineruns`' library function the refusals and the edges of what it reads, and prints the first line of each answer.
#![tactic(auto)]

use lineruns_text::answer::answer;
use std::io;
use std::io::Write;

// Prints the name of an input, a colon, a blank, and the first line that is answered to the input.
fn show(rt: &impl Print, name: &str, input: &[u8]) -> io::Result<()> {
    let mut output = [0u8; 110000];
    answer(input, &mut output);
    let line = output.split_inclusive(|&byte| byte == b'\n').next();
    print!(rt; "{name}: ")?;
    io::writer(rt).write_all(line.unwrap_or_default())
}

// What is a line of text, and what is not.
fn show_texts(rt: &impl Print) -> io::Result<()> {
    show(rt, "four numbers", b"0 0 11 3\n")?;
    show(rt, "no newline", b"0 0 11 3")?;
    show(rt, "minus and leading zeros", b"-0 000000 000011 -3\n")?;
    show(rt, "empty", b"")?;
    show(rt, "newline alone", b"\n")?;
    show(rt, "two newlines", b"0 0 11 3\n\n")?;
    show(rt, "carriage return", b"0 0 11 3\r\n")?;
    show(rt, "tab", b"0\t0 11 3\n")?;
    show(rt, "NUL", b"0 0 11 3\0")?;
    show(rt, "leading blank", b" 0 0 11 3\n")?;
    show(rt, "trailing blank", b"0 0 11 3 \n")?;
    show(rt, "two blanks", b"0  0 11 3\n")?;
    show(rt, "plus", b"0 0 11 +3\n")?;
    show(rt, "minus alone", b"0 0 11 -\n")?;
    show(rt, "seven digits", b"0 0 11 0000003\n")?;
    show(rt, "three numbers", b"0 0 11\n")?;
    show(rt, "five numbers", b"0 0 11 3 5\n")?;
    show(
        rt,
        "64 bytes",
        b"0 0 11 3                                                        ",
    )?;
    show(
        rt,
        "65 bytes",
        b"0 0 11 3                                                         ",
    )
}

// The most runs that are held, on both axes, and the coordinate range.
fn show_limits(rt: &impl Print) -> io::Result<()> {
    show(rt, "5000 runs along x", b"0 0 5000 4999\n")?;
    show(rt, "5001 runs along x", b"0 0 5001 5000\n")?;
    show(rt, "5000 runs along y", b"0 0 4999 -5000\n")?;
    show(rt, "5001 runs along y", b"0 0 5000 -5001\n")?;
    show(rt, "highest coordinate", b"16383 0 0 0\n")?;
    show(rt, "above the highest coordinate", b"16384 0 0 0\n")?;
    show(rt, "above it, and too many runs", b"16384 16384 0 0\n")
}

fn main(rt: HostRuntime) -> io::Result<()> {
    show_texts(&rt)?;
    show_limits(&rt)
}
