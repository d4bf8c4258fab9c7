// The greatest common divisor by the usual remainder steps.
ghost use Rattle.starts.specs.Divisor.{Gcd};

// The second number falls at each call.
#[tactic(auto, using(crate::specs::Divisor::gcd_zero, crate::specs::Divisor::gcd_step))]
pub fn gcd(a: u32, b: u32) -> u32
    ensures { Gcd a b result }
{
    if b == 0 { a } else { gcd(b, a % b) }
}
