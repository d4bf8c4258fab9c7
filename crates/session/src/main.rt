// The session program: lines of frames from standard input, their answers to standard output.
// Promises nothing by itself, since no contract can say what is read or written: each block goes through `feeding::feed`.
// Rests on feeding, whose theorem `session` is about every list of blocks, and on std's streams to read and write.
#![tactic(auto)]

ghost use Rattle.std.specs.Prelude.{◌≤◌, length, IfOk};
ghost use Rattle.feeding.specs.Line.{most};
ghost use Rattle.session.specs.Few.{HoldsFew};

use feeding::{HELD, Reached, Stage};
use std::fmt;
use std::io::{Read, Write};

// What a block leads to: more of the input is to be fed; its end was met; or a refused configuration has ended the session.
#[derive(Clone, Copy)]
enum Fed {
    Part(Reached),
    Whole(Reached),
    Refused,
}

// What went wrong.
#[derive(Clone, Copy)]
enum Failure {
    Input,
    Output,
}

impl fmt::Display for Failure {
    fn fmt<W: fmt::Write>(&self, f: &mut fmt::Formatter<W>) -> fmt::Result {
        match self {
            Failure::Input => write!(f, "the input cannot be read"),
            Failure::Output => write!(f, "the output cannot be written"),
        }
    }
}

// Writes what was printed.
fn write_out(rt: &HostRuntime, out: &[u8], printed: usize) -> Result<(), Failure>
    requires { printed ≤ length out.now }
{
    rt.stdout()
        .write_all(&out[..printed])
        .map_err(|_| Failure::Output)
}

// What a session needs: the bytes held of a line, the executive's blocks, and room for what is printed of one block of the input.
#[derive(Drop)]
struct Memory {
    line: [u8; HELD],
    config: [u8; 336],
    tables: [u8; 7517],
    slots: [u8; 2024],
    timers: [u8; 659],
    answer: [u8; 21],
    out: [u8; 335872],
}

impl Memory {
    // Reads a block, feeds it and writes what was printed. An error is not the end of the input, and no line ends with it.
    fn turn(&mut self, rt: &HostRuntime, reached: Reached) -> Result<Fed, Failure>
        requires { reached.held ≤ most }
        ensures { IfOk result HoldsFew }
    {
        let mut input = [0u8; 8192];
        // Not by `map_err` and `?`, behind which the check does not find that no more is read than there is room for.
        let Ok(n) = rt.stdin().read(&mut input) else {
            return Err(Failure::Input);
        };
        let from = feeding::next_block(reached);
        let r = feeding::feed(
            &input[..n],
            from,
            &mut self.line,
            &mut self.config,
            &mut self.tables,
            &mut self.slots,
            &mut self.timers,
            &mut self.answer,
            &mut self.out,
        );
        write_out(rt, &self.out, r.printed)?;
        if n == 0 {
            return Ok(Fed::Whole(r));
        }
        match r.stage {
            Stage::Ended => Ok(Fed::Refused),
            _ => Ok(Fed::Part(r)),
        }
    }

    // The end of the input.
    fn end(&mut self, rt: &HostRuntime, reached: Reached) -> Result<(), Failure>
        requires { reached.held ≤ most }
    {
        let last = feeding::next_block(reached);
        let printed = feeding::finish(
            last,
            &self.line,
            &mut self.config,
            &mut self.tables,
            &mut self.slots,
            &mut self.timers,
            &mut self.answer,
            &mut self.out,
        );
        write_out(rt, &self.out, printed)
    }
}

// Feeds all of the input. A proved loop has to end, and nothing says that an input does, so the turns are as many as no run uses up.
fn feed_all(rt: &HostRuntime) -> Result<(), Failure> {
    let mut memory = Memory {
        line: [0; HELD],
        config: [0; 336],
        tables: [0; 7517],
        slots: [0; 2024],
        timers: [0; 659],
        answer: [0; 21],
        out: [0; 335872],
    };
    let mut reached = feeding::start();
    for _ in 0..u64::MAX {
        match memory.turn(rt, reached)? {
            Fed::Part(on) => reached = on,
            Fed::Whole(last) => return memory.end(rt, last),
            Fed::Refused => return Ok(()),
        }
    }
    Ok(())
}

fn main(rt: HostRuntime) {
    if let Err(failure) = feed_all(&rt) {
        // Where this fails too, nobody can be told.
        let _ = eprintln!(rt; "session: {failure}");
    }
}
