// An answer as a line of output: its digits, and $0A behind them.
ghost use Rattle.std.specs.Prelude.{◌≡◌, ◌++◌, ◌+◌, ◌≤◌, length, take, get_or};
ghost use Rattle.rows.specs.Splice.{cut};
ghost use Rattle.feeding.specs.Input as input;

use tables::counts::count_of;

// The length of the answer, 20 at most.
fn length_of(answer: &[u8]) -> usize
    requires { 21 ≤ length answer.now }
    ensures { (result ≤ 20) × (get_or answer.now 0 0 ≤ 20 → result ≡ get_or answer.now 0 0) }
{
    count_of(20, answer[0])
}

// Prints the answer of the answer block behind what is printed. Gives how many bytes are printed then.
pub fn print(answer: &[u8], out: &mut [u8], printed: usize) -> usize
    requires { (21 ≤ length answer.now) × (printed + 41 ≤ length out.old) }
    ensures { (result ≤ printed + 41)
        × (get_or answer.now 0 0 ≤ 20 → take result out.new ≡ take printed out.old ++ input.print (cut answer.now 1 (1 + get_or answer.now 0 0))) }
{
    let n = length_of(answer);
    let end = 1 + n;
    // 41 bytes are room enough for its digits and the line's end.
    let _ = line::write(&answer[1..end], &mut out[printed..]);
    let at = printed + 2 * n;
    out[at] = 0x0A;
    at + 1
}
