// Bytes that count the rows in use of a table.
ghost use Rattle.std.specs.Prelude.{◌≡◌, ◌≤◌};
ghost use Rattle.tables.specs.Decode.{count_of};

// A byte that counts, the most that there can be where it says more.
pub fn count_of(most: usize, x: u8) -> usize
    ensures { (result ≡ count_of most x) × (result ≤ most) }
{
    let n = x as usize;
    if n <= most { n } else { most }
}
