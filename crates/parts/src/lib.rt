// A lent block: a mark at both ends of its size, and between them the part that a configuration needs.
// Promises: a block is marked exactly where both marks stand; what marks a block or keeps a frame changes the bytes named and no other.
// Rests on rows, for copies and numbers of bytes.
#![tactic(auto)]

ghost use Rattle.std.specs.Prelude.{◌≡◌, ◌+◌, ◌*◌, ◌≤◌, eqb, length};
ghost use Rattle.ledger.specs.Lists as lists;
ghost use Rattle.rows.specs.Splice.{splice};
ghost use Rattle.rows.specs.Four.{le4};
ghost use Rattle.parts.specs.Parts.{part_at, frame_at, marked_by, ends, kept, kept_frame};

// Where the part begins; in the block of the configuration the frame's length lies there, and the frame behind it.
pub const PART_AT: usize = 4;

pub const FRAME_AT: usize = 6;

// Whether a mark stands from byte `at` on.
fn stands(block: &[u8], at: usize, mark: u32) -> bool
    requires { at + 4 ≤ length block.now }
    ensures { result ≡ eqb (le4 block.now at) mark }
{
    rows::get4(block, at) == mark
}

// Whether both marks of a block of this size stand.
pub fn is_marked(block: &[u8], size: usize, mark: u32) -> bool
    requires { (8 ≤ size) × (size ≤ length block.now) }
    ensures { result ≡ marked_by mark size block.now }
{
    stands(block, 0, mark) && stands(block, size - 4, mark)
}

// Sets both marks.
pub fn mark_ends(block: &mut [u8], size: usize, mark: u32)
    requires { (8 ≤ size) × (size ≤ length block.old) }
    ensures { block.new ≡ ends mark size block.old }
{
    rows::put4(block, 0, mark);
    rows::put4(block, size - 4, mark);
}

// The length of the frame that the block keeps, high byte first.
pub fn frame_length(config: &[u8]) -> usize
    requires { frame_at ≤ length config.now }
    ensures { (result ≡ lists.word part_at config.now) × (result ≤ 65535) }
{
    rows::word(config[PART_AT], config[PART_AT + 1]) as usize
}

// The frame that the block keeps.
pub fn kept_frame(config: &[u8]) -> &[u8]
    requires { (frame_at ≤ length config.now) × (frame_at + lists.word part_at config.now ≤ length config.now) }
    ensures { result.now ≡ kept_frame config.now }
{
    let end = FRAME_AT + frame_length(config);
    &config[FRAME_AT..end]
}

// Keeps a frame in the block, its length before it: high byte first, by a quotient and a rest, as std's `to_be_bytes` is no code that
// the theorems about runs know.
pub fn keep_frame(frame: &[u8], config: &mut [u8])
    requires { (length frame.now ≤ 65535) × (frame_at + length frame.now ≤ length config.old) }
    ensures { config.new ≡ splice config.old part_at (kept frame.now) }
{
    let n = frame.len();
    rows::copy_in(frame, config, FRAME_AT);
    config[PART_AT] = (n / 256) as u8;
    config[PART_AT + 1] = (n % 256) as u8;
}
