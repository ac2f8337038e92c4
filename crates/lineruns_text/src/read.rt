// Reading the line: four numbers with single blanks between.
ghost use Rattle.std.specs.Prelude.{◌≡◌, ◌<◌, IfSome};
ghost use Rattle.refusal.specs.Refusal.{answered};
ghost use Rattle.lineruns_text.specs.Reading.{digits, number, words, four, line_of, read_answer};

use line::ends::Ends;
use refusal::Refusal;

// The most bytes that an input has, and the most digits of a number.
const LONGEST_INPUT: usize = 64;

const MOST_DIGITS: usize = 6;

// The number that 1 to 6 digits make.
fn digits(text: &[u8]) -> Option<u32>
    ensures value { result ≡ digits text.now }
    ensures small { IfSome result (λ n. n < 1000000) }
{
    if !(1..=MOST_DIGITS).contains(&text.len()) {
        return None;
    }
    let mut value: u32 = 0;
    for &byte in text {
        if !byte.is_ascii_digit() {
            return None;
        }
        value = 10 * value + u32::from(byte - b'0');
    }
    Some(value)
}

// The number that a word is: an optional minus and 1 to 6 digits.
fn number(word: &[u8]) -> Option<i32>
    ensures { result ≡ number word.now }
{
    match word.strip_prefix(b"-") {
        Some(rest) => Some(-(digits(rest)? as i32)),
        None => Some(digits(word)? as i32),
    }
}

// The line of exactly four numbers.
fn four_numbers(text: &[u8]) -> Option<Ends>
    ensures { result ≡ four (words text.now) }
{
    let mut words = text.split(|&byte| byte == b' ');
    let x0 = number(words.next()?)?;
    let y0 = number(words.next()?)?;
    let x1 = number(words.next()?)?;
    let y1 = number(words.next()?)?;
    match words.next() {
        Some(_) => None,
        None => Some(Ends { x0, y0, x1, y1 }),
    }
}

// The line that the input is: at most 64 bytes, four numbers, at most one newline at the end. Any other input is refused (9).
pub fn read_line(input: &[u8]) -> Result<Ends, Refusal>
    ensures { answered result ≡ read_answer (line_of input.now) }
{
    if LONGEST_INPUT < input.len() {
        return Err(Refusal::Input);
    }
    four_numbers(input.strip_suffix(b"\n").unwrap_or(input)).ok_or(Refusal::Input)
}
