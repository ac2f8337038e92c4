// The marks that are to be written: which can be, and writing them.
ghost use Rattle.std.specs.Prelude.{◌≡◌, false, length};
ghost use Rattle.refusal.specs.Refusal.{answer, answered, first_met};
ghost use Rattle.reel.specs.Reel.{last_of, coordinates_out, trailer, encoded};
ghost use Rattle.reel.specs.Writing.{too_long, table_off, write_conditions};

use crate::format::{LETTERS, LONGEST, TRAILER};
use crate::stored::write_items;
use coordinate::Coordinate;
use refusal::Refusal;

// Coordinates, of which four make a record, and the table.
#[derive(Clone, Copy)]
pub struct Marks<'a> {
    pub list: &'a [i32],
    pub table: &'a [u32],
}

impl Marks<'_> {
    // Whether the file would be over 65,536 bytes. The lengths are tested one by one first, so that the sum cannot overflow.
    #[tactic(auto, unfolding(crate::specs::Writing::too_long))]
    fn too_long(self) -> bool
        ensures { result ≡ too_long self.entry.list.now self.entry.table.now }
    {
        LONGEST < self.list.len()
            || LONGEST < self.table.len()
            || LONGEST < 2 * self.list.len() + 4 * self.table.len() + TRAILER
    }

    // The last number of the table, 0 without frames.
    fn last_of(self) -> u32
        ensures { result ≡ last_of self.entry.table.now }
    {
        self.table.last().copied().unwrap_or(0)
    }

    // Whether a number of the table falls, or the table does not fit the list, or the file a buffer of `room` bytes.
    #[tactic(auto, unfolding(crate::specs::Writing::table_off), using(crate::proofs::Chains::slice_rises_is))]
    fn table_off(self, room: usize) -> bool
        requires { too_long self.list.now self.table.now ≡ false }
        ensures { result ≡ table_off self.entry.list.now self.entry.table.now room }
    {
        !self.table.is_sorted()
            || self.list.len() != 4 * self.last_of() as usize
            || room != 2 * self.list.len() + 4 * self.table.len() + TRAILER
    }

    // Whether a coordinate is out of range.
    fn records_out(self) -> bool
        ensures { result ≡ coordinates_out self.entry.list.now }
    {
        self.list.iter().any(|z| Coordinate::out_of_range(*z))
    }

    // Whether their file can be written into a buffer of `room` bytes, or refusal 10, 11 or 12.
    #[tactic(auto, unfolding(refusal::specs::Refusal::first_met))]
    pub fn check(self, room: usize) -> Result<(), Refusal>
        ensures { answered result ≡ answer (first_met (write_conditions self.entry.list.now self.entry.table.now room)) tt }
    {
        if self.too_long() {
            return Err(Refusal::File);
        }
        if self.table_off(room) {
            return Err(Refusal::Table);
        }
        if self.records_out() {
            return Err(Refusal::Record);
        }
        Ok(())
    }

    // Fills a buffer with their file, which can be written.
    pub fn write(self, output: &mut [u8])
        requires { first_met (write_conditions self.list.now self.table.now (length output.old)) ≡ 0 }
        ensures { output.new ≡ encoded self.entry.list.now self.entry.table.now }
    {
        let position = 2 * self.list.len();
        let (records, rest) = output.split_at_mut(position);
        let (numbers, trailer) = rest.split_at_mut(4 * self.table.len());
        write_items(self.list, records);
        write_items(self.table, numbers);
        write_trailer(position as u32, self.table.len() as u32, trailer);
    }
}

// Fills a buffer with the last 12 bytes of a file.
fn write_trailer(position: u32, frames: u32, output: &mut [u8])
    requires { length output.old ≡ 12 }
    ensures { output.new ≡ trailer position frames }
{
    let (numbers, letters) = output.split_at_mut(8);
    write_items(&[position, frames], numbers);
    letters.copy_from_slice(&LETTERS);
}
