// Writing a text into a lent buffer.
ghost use Rattle.std.specs.Prelude.{◌≡◌, ◌++◌, length};
ghost use Rattle.std.specs.Fmt.{decimal, signed_decimal};
ghost use Rattle.lineruns_text.specs.Written.{HasRoom, Appended};

use itoa::{Buffer, Integer, write_digits};

// A lent buffer, and how many of its bytes are text so far.
#[derive(Drop)]
pub struct Text<'a> {
    pub output: &'a mut [u8],
    pub len: usize,
}

// How many digits a number has.
fn places(n: u32) -> usize
    ensures { result ≡ length (decimal n) }
{
    let mut rest = n;
    let mut count: usize = 1;
    while 10 <= rest {
        rest /= 10;
        count += 1;
    }
    count
}

impl Text<'_> {
    // Appends bytes, one at a time: `copy_from_slice` would call the C library's `memcpy`.
    #[inline]
    pub fn push(&mut self, bytes: &[u8])
        requires { HasRoom self.old (length bytes.now) }
        ensures { Appended bytes.now self.old self.new }
    {
        for &byte in bytes {
            self.output[self.len] = byte;
            self.len += 1;
        }
    }

    // Appends a number in decimal, and the bytes that end it.
    #[inline]
    pub fn push_number<I: Integer>(&mut self, n: I, end: &[u8])
        requires { HasRoom self.old (length (I.text n ++ end.now)) }
        ensures { Appended (I.text n ++ end.now) self.old self.new }
    {
        let mut buffer = Buffer::new();
        self.push(buffer.format(n).as_bytes());
        self.push(end);
    }

    // Appends a number in decimal, its digits written where they stay. A run's numbers go this way: formatted in a buffer of their own
    // and copied, as `push_number` does it, they make the longest list take half as long again.
    pub(crate) fn push_decimal(&mut self, n: u32)
        requires { HasRoom self.old (length (decimal n)) }
        ensures { Appended (decimal n) self.old self.new }
    {
        let end = self.len + places(n);
        write_digits(u64::from(n), self.output, end);
        self.len = end;
    }

    // The same of a signed number, with a minus where it is below 0.
    pub(crate) fn push_signed(&mut self, z: i32)
        requires { HasRoom self.old (length (signed_decimal z)) }
        ensures { Appended (signed_decimal z) self.old self.new }
    {
        if z < 0 {
            self.push(b"-");
        }
        self.push_decimal(z.unsigned_abs());
    }
}
