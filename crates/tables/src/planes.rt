// Bit planes: a plane of 16 bytes for each block, in which bit i belongs to the task in row i, task i + 1.
ghost use Rattle.std.specs.Prelude.{◌≡◌, ℕ, ◌+◌, ◌-◌, ◌*◌, ◌^◌, ◌<◌, ◌≤◌, length, MatchOption};
ghost use Rattle.std.specs.Int.Bits.{bit_and, bit_or};
ghost use Rattle.tables.specs.Bits.{bit, Lowest};
ghost use Rattle.tables.specs.Planes.{number, blocked_at, NewBit};

// The eight bytes from `at` on as a number, the lowest byte first. Compiled to one load. A sum, not std's `u64::from_le_bytes`, whose
// code the theorems about runs (theorems/proofs/World) cannot name.
fn word(planes: &[u8], at: usize) -> u64
    requires { at + 8 ≤ length planes.now }
    ensures { result ≡ number 8 at planes.now }
{
    planes[at] as u64
        + planes[at + 1] as u64 * 0x100
        + planes[at + 2] as u64 * 0x1_0000
        + planes[at + 3] as u64 * 0x100_0000
        + planes[at + 4] as u64 * 0x1_0000_0000
        + planes[at + 5] as u64 * 0x100_0000_0000
        + planes[at + 6] as u64 * 0x1_0000_0000_0000
        + planes[at + 7] as u64 * 0x100_0000_0000_0000
}

// The blocked ones of the 64 tasks from row 8 * at on, a bit each.
fn blocked(planes: &[u8], at: usize) -> u64
    requires { (length planes.now ≡ 64) × (at ≤ 8) }
    ensures { (i : ℕ) → i < 64 → bit result i ≡ blocked_at planes.now (8 * at + i) }
{
    word(planes, at) | word(planes, at + 16) | word(planes, at + 32) | word(planes, at + 48)
}

// The lowest bit that is clear.
fn first_clear(x: u64) -> Option<usize>
    ensures { MatchOption result (Lowest 64 (bit x) 64) (λ i. Lowest 64 (bit x) i × (i < 64)) }
{
    if x == u64::MAX {
        return None;
    }
    Some(u64::trailing_zeros(!x) as usize)
}

// The lowest row that has none of the blocks.
pub fn first_free(planes: &[u8]) -> Option<usize>
    requires { length planes.now ≡ 64 }
    ensures { MatchOption result (Lowest 128 (blocked_at planes.now) 128) (λ i. Lowest 128 (blocked_at planes.now) i × (i < 128)) }
{
    if let Some(i) = first_clear(blocked(planes, 0)) {
        return Some(i);
    }
    if let Some(i) = first_clear(blocked(planes, 8)) {
        return Some(i + 64);
    }
    None
}

// Bit i of a byte.
pub fn bit_of(x: u8, i: usize) -> bool
    requires { i < 8 }
    ensures { result ≡ bit x i }
{
    (x >> i) % 2 == 1
}

// Set and cleared apart: each is one operator of the language, with a clause of its own.
fn with_bit(x: u8, i: usize) -> u8
    requires { i < 8 }
    ensures { result ≡ bit_or x (2 ^ i) }
{
    x | 1u8 << i
}

fn without_bit(x: u8, i: usize) -> u8
    requires { i < 8 }
    ensures { result ≡ bit_and x ((2 ^ 8 - 1) - 2 ^ i) }
{
    x & !(1u8 << i)
}

// A byte with bit i set, or clear.
pub fn put_bit(x: u8, i: usize, on: bool) -> u8
    requires { i < 8 }
    ensures { NewBit i on x result }
{
    if on {
        with_bit(x, i)
    } else {
        without_bit(x, i)
    }
}
