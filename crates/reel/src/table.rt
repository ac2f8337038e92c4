// The table in a file, by the bytes of its numbers.
ghost use Rattle.std.specs.Prelude.{◌≡◌, ◌*◌, ◌≤◌, length};
ghost use Rattle.reel.specs.Reel.{records_before, falls};
ghost use Rattle.reel.specs.Reading.{numbers};

use crate::number::word;

// The number of records before frame `k`.
pub fn records_before(table: &[u8], k: usize) -> u32
    requires { 4 * k ≤ length table.now }
    ensures { result ≡ records_before (numbers table.now) k }
{
    if k == 0 {
        return 0;
    }
    word(table, 4 * (k - 1))
}

// Whether a number is below the one before it.
pub fn falls(table: &[u8]) -> bool
    ensures { result ≡ falls (numbers table.now) }
{
    !(0..table.len() / 4).map(|k| word(table, 4 * k)).is_sorted()
}
