// The refusals of document 01 and of the calls beside its frames: a name for each number, the one that mcx11.h has for it.
// Promises: the number that a refusal goes by, and what a call returns, which is 0 where nothing is refused.
// Rests on nothing.
#![tactic(auto)]

ghost use Rattle.std.specs.Prelude.{◌≡◌};
ghost use Rattle.refusals.specs.Numbers.{number_of, number_in};

// Why a frame or a call is refused.
#[derive(Clone, Copy, PartialEq, Eq)]
pub enum Refusal {
    Line = 1,
    Length = 2,
    Configuration = 3,
    Code = 4,
    Task = 5,
    Semaphore = 6,
    Queue = 7,
    Message = 8,
    TockValue = 9,
    Milliseconds = 10,
    Memory = 11,
    NullTaskRuns = 20,
    SemaphoreWaiting = 21,
    MessageInMailbox = 22,
    AllTimersActive = 23,
    HasATimer = 24,
    IdleOrWaiting = 25,
    BeforeFirst = 26,
    AboveModule = 27,
    Stretch = 28,
    Cycles = 31,
}

// The number that a refusal goes by.
impl From<Refusal> for u8 {
    ghost from_gives = { λ refusal number. number ≡ number_of refusal };

    fn from(refusal: Refusal) -> u8 {
        refusal as u8
    }
}

// What a call returns: 0 where nothing is refused, or the number of its refusal.
pub fn returned(answer: Result<(), Refusal>) -> u8
    ensures { result ≡ number_in answer }
{
    match answer {
        Ok(()) => 0,
        Err(refusal) => u8::from(refusal),
    }
}
