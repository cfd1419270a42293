// Answers questions about durations, deadlines and a clock, one on a line of standard input, from the proved
// crate `time`:
//
//     ticks SECS NANOS            the ticks of a duration
//     zero SECS NANOS             whether it is exactly zero
//     deadline TICK SECS NANOS    the deadline of a lifetime that starts at a tick
//     remaining DEADLINE TICK     the ticks that are left of a deadline
//     clock TICK                  a clock that reads a tick; the next two lines move it
//     set TICK
//     advance SECS NANOS
//
// A clock's step is taken by value and by the lent form, and where they differ the answer says so.
// A question is named by its first letter alone. Its line is written back with ` = ` and the answer; a line that
// starts with `#` is written back as it is. Nothing here is part of what is proved of the cache: it is how a
// person, and the recorded answers of the Rust, reach the crate.
#![tactic(auto)]

mod answer;
mod line;
mod question;

use answer::Answer;
use line::Line;
use question::Question;
use std::io;
use std::io::Read;
use time::MockClock;

// Writes the line back with its answer.
fn answer_line(rt: &impl Print, line: &Line, clock: &mut MockClock) -> io::Result<()> {
    let shown = line.shown();
    rt.write_all(shown)?;
    if shown.starts_with(b"#") {
        return rt.write_all(b"\n");
    }
    match line.whole().and_then(Question::of) {
        Some(question) => match Answer::to(question, clock) {
            Ok(answer) => println!(rt; " = {answer}"),
            Err(why) => println!(rt; " = refused {}", why.number()),
        },
        None => rt.write_all(b" = no question\n"),
    }
}

// By blocks, since `bytes()` of the input would ask the system for each byte. Every loop has to end, and nothing says
// that an input does: the blocks are counted up to a number that no run reaches.
fn main(rt: HostRuntime) -> io::Result<()> {
    let mut input = rt.reader();
    let mut block = [0u8; 65536];
    let mut clock = MockClock::new();
    let mut line = Line::new();
    for _ in 0..u64::MAX {
        let n = input.read(&mut block)?;
        if n == 0 {
            break;
        }
        for byte in &block[..n] {
            match *byte {
                b'\n' => {
                    answer_line(&rt, &line, &mut clock)?;
                    line = Line::new();
                }
                byte => line.push(byte),
            }
        }
    }
    Ok(())
}
