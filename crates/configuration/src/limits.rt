// The most that there may be of each: of the configurations that a memory of fixed sizes has room for.
ghost use Rattle.std.specs.Prelude.{◌≡◌, ◌≤◌};
ghost use Rattle.ledger.specs.Config as config;
ghost use Rattle.configuration.specs.Limits.{limits_of};

use crate::pairs::MOST_PAIRS;

#[derive(Clone, Copy)]
pub struct Limits {
    pub tasks: u8,
    pub queues: u8,
    pub timers: u8,
    pub messages: u8,
    pub bytes: u32,
}

// The ride controller's.
pub fn controller() -> Limits
    ensures { limits_of result ≡ config.controller }
{
    Limits {
        tasks: 126,
        queues: 32,
        timers: 64,
        messages: 64,
        bytes: 4096,
    }
}

// The brake module's.
pub fn brake_module() -> Limits
    ensures { limits_of result ≡ config.brake_module }
{
    Limits {
        tasks: 16,
        queues: 8,
        timers: 8,
        messages: 8,
        bytes: 256,
    }
}

// The longest frame of a configuration within the limits.
pub fn longest(limits: Limits) -> usize
    ensures { (result ≡ config.longest (limits_of limits)) × (result ≤ 901) }
{
    8 + limits.tasks as usize + 2 * (limits.queues as usize) + 2 * MOST_PAIRS
}
