// The program `lineruns`, over any reader and any writer.
ghost use Rattle.std.specs.Prelude.{◌≡◌, ◌<◌, ◌≤◌, Some, IfSome, IfOk, OnOk, OnErr, length, take, drop};
ghost use Rattle.std.specs.Io.KnownBytes.{Appends, Consumes, IsAtEnd};
ghost use Rattle.lineruns_text.specs.Writing.{printed};
ghost use Rattle.lineruns_text.specs.Program.{ConsumesUpTo, AppendsFront, Stopped};

use crate::answer::answer;
use std::io;
use std::io::{ErrorKind, Read, Write};

// Reads until the buffer is full or the input ends, however few bytes come at a time, and answers how many bytes of the buffer
// were read. They are the input's first ones, and all that it has where they do not fill the buffer.
fn read_full<R: Read>(reader: &mut R, input: &mut [u8]) -> io::Result<usize>
    ensures within { IfOk result (λ n. n ≤ length input.new) }
    ensures first { IfOk result (λ n. Consumes (R.remaining reader.old) (R.remaining reader.new) (take n input.new)) }
    ensures all { IfOk result (λ n. n < length input.new → IsAtEnd (R.remaining reader.new)) }
    ensures failed { OnErr result (ConsumesUpTo (R.remaining reader.old) (R.remaining reader.new) (length input.new)) }
{
    let mut done = 0;
    while done < input.len() {
        let n = reader.read(&mut input[done..])?;
        if n == 0 {
            return Ok(done);
        }
        done += n;
    }
    Ok(done)
}

// Writes all the bytes, however few are taken at a time. Where the writer fails it has taken the first of them.
fn write_full<W: Write>(writer: &mut W, bytes: &[u8]) -> io::Result<()>
    ensures all { OnOk result (Appends (W.contents writer.old) (W.contents writer.new) bytes.now) }
    ensures failed { OnErr result (AppendsFront (W.contents writer.old) (W.contents writer.new) bytes.now) }
{
    let mut done = 0;
    while done < bytes.len() {
        let sent = writer.write(&bytes[done..])?;
        if sent == 0 {
            return Err(io::Error::from(ErrorKind::WriteZero));
        }
        done += sent;
    }
    Ok(())
}

// Reads the input and writes what is printed for the whole of it, its runs or the refusal. It takes one byte more than a lawful
// input has, so that a longer one is seen. Where the reader or the writer fails, the error is answered.
pub fn print_runs<R: Read, W: Write>(reader: &mut R, writer: &mut W) -> io::Result<()>
    ensures read { OnOk result (IfSome (R.remaining reader.old) (λ input. R.remaining reader.new ≡ Some (drop 65 input))) }
    ensures written { OnOk result (IfSome (R.remaining reader.old) (λ input. Appends (W.contents writer.old) (W.contents writer.new) (printed input))) }
    ensures stopped { OnErr result (IfSome (R.remaining reader.old) (λ input. Stopped input (R.remaining reader.new) (W.contents writer.old) (W.contents writer.new))) }
{
    let mut input = [0u8; 65];
    let n = read_full(reader, &mut input)?;
    let mut output = [0u8; 110000];
    let m = answer(&input[..n], &mut output);
    write_full(writer, &output[..m])
}
