//! Runs a script of calls: reads it from standard input, a call a line, and prints the answer to each call. The format is that of `script`.
#![tactic(auto)]

use machine::State;
use std::io::Write;
use std::rt::HostRuntime;
use stream::{Lines, Unwritten};

// The device, where the answers to its calls are printed, and the buffers: the output that is lent to each call, and the first `at` bytes of
// `answers`, which are not printed yet.
#[derive(Drop)]
struct Replay<'a, W> {
    state: State,
    to: &'a mut W,
    out: &'a mut [u8],
    answers: &'a mut [u8],
    at: usize,
}

impl<W: Write> Lines for Replay<'_, W> {
    // A line's call is made, and answered. An answer has 131,077 bytes at most. Answers are printed together, some 64 KB at a time.
    fn line(&mut self, line: &[u8]) -> Result<(), Unwritten> {
        let done = script::perform(self.state, line, self.out);
        let answer = done.answer;
        self.state = answer.state;
        let at = self.at;
        let out = &mut *self.out;
        let answers = &mut *self.answers;
        let bytes = texts::prefix(out, answer.written);
        let end = script::put_reply(answers, at, done.command, answer.number, bytes);
        self.at = end;
        if end < 65536 {
            return Ok(());
        }
        self.pause()
    }

    fn pause(&mut self) -> Result<(), Unwritten> {
        let held = self.at;
        self.at = 0;
        let to = &mut *self.to;
        let answers = &mut *self.answers;
        stream::print(to, texts::prefix(answers, held))
    }
}

fn main(rt: HostRuntime) {
    let mut to = rt.stdout();
    let mut errors = rt.stderr();
    let blank = device::open(0, b"");
    let mut buf = [0u8; 131072];
    let mut out = [0u8; 65536];
    let mut answers = [0u8; 262144];
    let mut replay = Replay {
        state: blank.state,
        to: &mut to,
        out: &mut out,
        answers: &mut answers,
        at: 0,
    };
    // Of a line that fills the buffer the first 65,537 bytes are enough: it is too long whatever follows.
    let printed = stream::for_each_line(&mut rt.stdin(), &mut buf, 65537, &mut replay, &mut errors);
    if printed
        .and_then(|()| stream::close_output(&rt, &to))
        .is_err()
    {
        stream::say_unwritten(&mut errors);
    }
}
