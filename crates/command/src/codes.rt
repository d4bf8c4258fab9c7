// The codes of frames, each by its number, and what each uses its fields for, as in the ledger.
ghost use Rattle.std.specs.Prelude.{◌≡◌};
ghost use Rattle.ledger.specs.Refusals as ledger;
ghost use Rattle.command.specs.Codes.{view_code, view_fields, Decodes};

use refusals::Refusal;

// The names are those of mcx11.h.
#[derive(Clone, Copy)]
pub enum Code {
    Wait = 0x01,
    Signal = 0x02,
    Pend = 0x03,
    Send = 0x04,
    Sendw = 0x05,
    Receive = 0x06,
    Dequeue = 0x07,
    Enqueue = 0x08,
    Resume = 0x09,
    Suspend = 0x0A,
    Terminate = 0x0B,
    Execute = 0x0C,
    Delay = 0x0D,
    Timer = 0x0E,
    Purge = 0x0F,
    Tick = 0x10,
    InterruptExit = 0x11,
    SeasonTimer = 0x12,
}

// The code that a frame's first byte is.
impl TryFrom<u8> for Code {
    type Error = Refusal;

    ghost try_from_gives = { Decodes };

    #[tactic(auto, unfolding(ledger::specs::Refusals::code_at, ledger::specs::Lists::at))]
    fn try_from(number: u8) -> Result<Code, Refusal> {
        match number {
            0x01 => Ok(Code::Wait),
            0x02 => Ok(Code::Signal),
            0x03 => Ok(Code::Pend),
            0x04 => Ok(Code::Send),
            0x05 => Ok(Code::Sendw),
            0x06 => Ok(Code::Receive),
            0x07 => Ok(Code::Dequeue),
            0x08 => Ok(Code::Enqueue),
            0x09 => Ok(Code::Resume),
            0x0A => Ok(Code::Suspend),
            0x0B => Ok(Code::Terminate),
            0x0C => Ok(Code::Execute),
            0x0D => Ok(Code::Delay),
            0x0E => Ok(Code::Timer),
            0x0F => Ok(Code::Purge),
            0x10 => Ok(Code::Tick),
            0x11 => Ok(Code::InterruptExit),
            0x12 => Ok(Code::SeasonTimer),
            _ => Err(Refusal::Code),
        }
    }
}

// A: a task from 1 on; one to start, which isn't running; a task, or 0 for self; a task, or 0 for any; a queue.
#[derive(Clone, Copy)]
pub enum FieldA {
    Unused,
    Task,
    ToStart,
    SelfOrTask,
    AnyOrTask,
    Queue,
}

// B: a semaphore, or 0 for self's; or 0 for that of task A; or 0 for none.
#[derive(Clone, Copy)]
pub enum FieldB {
    Unused,
    OfSelf,
    OfTask,
    OrNone,
}

#[derive(Clone, Copy)]
pub enum FieldX {
    Unused,
    Message,
    TockValue,
    Switch,
}

// What follows B: X; X and an entry; X in four bytes.
#[derive(Clone, Copy)]
pub enum Follows {
    X,
    XAndEntry,
    LongX,
}

// The semaphore that is pended or waited on: B; B, where task A waits; a queue's, if it is empty or full.
#[derive(Clone, Copy)]
pub enum Waits {
    Nowhere,
    OnB,
    TaskOnB,
    OnNotEmpty,
    OnNotFull,
}

#[derive(Clone, Copy)]
pub struct Fields {
    pub a: FieldA,
    pub b: FieldB,
    pub x: FieldX,
    pub follows: Follows,
    pub waits: Waits,
    pub service: bool,
}

// A service that uses no field and waits nowhere.
const PLAIN: Fields = Fields {
    a: FieldA::Unused,
    b: FieldB::Unused,
    x: FieldX::Unused,
    follows: Follows::X,
    waits: Waits::Nowhere,
    service: true,
};

// A service that starts a timer for a task, on its own semaphore or another.
const TIMED: Fields = Fields {
    a: FieldA::SelfOrTask,
    b: FieldB::OfTask,
    x: FieldX::TockValue,
    ..PLAIN
};

// The row of a code.
#[tactic(auto, unfolding(ledger::specs::Refusals::fields))]
pub fn row(code: Code) -> Fields
    ensures { view_fields result ≡ ledger.fields (view_code code) }
{
    match code {
        Code::Wait | Code::Pend => Fields {
            b: FieldB::OfSelf,
            waits: Waits::OnB,
            ..PLAIN
        },
        Code::Signal => Fields {
            b: FieldB::OfSelf,
            ..PLAIN
        },
        Code::Send => Fields {
            a: FieldA::Task,
            b: FieldB::OfSelf,
            x: FieldX::Message,
            ..PLAIN
        },
        Code::Sendw => Fields {
            a: FieldA::Task,
            b: FieldB::OfSelf,
            x: FieldX::Message,
            waits: Waits::OnB,
            ..PLAIN
        },
        Code::Receive => Fields {
            a: FieldA::AnyOrTask,
            ..PLAIN
        },
        Code::Dequeue => Fields {
            a: FieldA::Queue,
            waits: Waits::OnNotEmpty,
            ..PLAIN
        },
        Code::Enqueue => Fields {
            a: FieldA::Queue,
            follows: Follows::XAndEntry,
            waits: Waits::OnNotFull,
            ..PLAIN
        },
        Code::Resume => Fields {
            a: FieldA::Task,
            ..PLAIN
        },
        Code::Suspend | Code::Terminate => Fields {
            a: FieldA::SelfOrTask,
            ..PLAIN
        },
        Code::Execute => Fields {
            a: FieldA::ToStart,
            ..PLAIN
        },
        Code::Delay => Fields {
            waits: Waits::TaskOnB,
            ..TIMED
        },
        Code::Timer => TIMED,
        Code::Purge => Fields {
            x: FieldX::Switch,
            ..TIMED
        },
        Code::Tick => Fields {
            service: false,
            ..PLAIN
        },
        Code::InterruptExit => Fields {
            b: FieldB::OrNone,
            service: false,
            ..PLAIN
        },
        Code::SeasonTimer => Fields {
            follows: Follows::LongX,
            ..TIMED
        },
    }
}
