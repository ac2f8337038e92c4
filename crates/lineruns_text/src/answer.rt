// The whole of `lineruns`, as a function of its input: what it prints.
ghost use Rattle.std.specs.Prelude.{◌≡◌};
ghost use Rattle.refusal.specs.Refusal.{answered};
ghost use Rattle.lineruns_text.specs.Reading.{line_of};
ghost use Rattle.lineruns_text.specs.Writing.{printed};
ghost use Rattle.lineruns_text.specs.Listing.{input_answer, input_after};
ghost use Rattle.lineruns_text.specs.Written.{print_length, print_after, HasRoom, Appended};

use crate::print::letter;
use crate::read::read_line;
use crate::text::Text;
use line_list::list::{Listing, list_runs};
use refusal::Refusal;

// Lists the runs of the input's line. Refused (9, then 1, 5) it writes nothing.
fn list_input(input: &[u8], list: &mut [i32]) -> Result<Listing, Refusal>
    ensures answered { answered result ≡ input_answer (line_of input.now) list.old }
    ensures list_after { list.new ≡ input_after (line_of input.now) list.old }
{
    let ends = read_line(input)?;
    list_runs(ends, list)
}

impl Text<'_> {
    // Appends what is printed for an input: its line's list, or why it is refused. A list of 5000 runs has 15000 numbers.
    fn push_answer(&mut self, input: &[u8])
        requires { HasRoom self.old 110000 }
        ensures { Appended (printed input.now) self.old self.new }
    {
        let mut list = [0i32; 15000];
        match list_input(input, &mut list) {
            Ok(listing) => {
                self.push_axis(letter(listing.axis), listing.runs);
                self.push_runs(&list[..3 * listing.runs as usize]);
            }
            Err(refusal) => self.push_refused(refusal.number()),
        }
    }
}

// Writes what `lineruns` prints for its input, and answers its length. An output shorter than 110000 bytes is left as it is,
// and the answer is 0; every printed text is shorter than that.
pub fn answer(input: &[u8], output: &mut [u8]) -> usize
    ensures value { result ≡ print_length input.now output.old }
    ensures output_after { output.new ≡ print_after input.now output.old }
{
    if output.len() < 110000 {
        return 0;
    }
    let mut text = Text { output, len: 0 };
    text.push_answer(input);
    text.len
}
