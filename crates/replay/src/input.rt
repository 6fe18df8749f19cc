// The lines of standard input, one after another, by way of a space that has room for the longest.
ghost use Rattle.std.specs.Prelude.{◌+◌, ◌≤◌, ◌<◌, IfSome};

use crate::line::Line;
use command_line::input::read_full;

// What is read: the bytes of the space up to `held`, of which those from `start` on are still to be answered.
#[derive(Drop)]
pub struct Lines {
    // an array, since nothing here allocates
    space: [u8; 262144],
    start: usize,
    held: usize,
    ghost begun: { start ≤ held },
    ghost fits: { held ≤ 262144 },
}

impl Lines {
    // Nothing is read yet.
    pub fn new() -> Lines {
        Lines {
            space: [0; 262144],
            start: 0,
            held: 0,
        }
    }

    // How long the next line is, if its line feed is read.
    fn length_of_next(&self) -> Option<usize>
        ensures { IfSome result (λ length. self.now.start + length < self.now.held) }
    {
        self.space[self.start..self.held]
            .iter()
            .position(|c| *c == b'\n')
    }

    // The bytes that are left of an unfinished line are moved to the front, and more are read behind them.
    fn read_on<R: Input>(&mut self, rt: &R) {
        let left = self.held - self.start;
        self.space.copy_within(self.start..self.held, 0);
        self.start = 0;
        self.held = left;
        let n = read_full(rt, &mut self.space[left..]);
        self.held = left + n;
    }

    // The same, reading on for it.
    fn length_of_coming<R: Input>(&mut self, rt: &R) -> Option<usize>
        ensures { IfSome result (λ length. self.new.start + length < self.new.held) }
    {
        let length = self.length_of_next();
        if length.is_some() {
            return length;
        }
        self.read_on(rt);
        self.length_of_next()
    }

    // The next line, without its line feed; nothing where the input ends before it does.
    pub fn next<R: Input>(&mut self, rt: &R) -> Option<Line<'_>> {
        let length = self.length_of_coming(rt)?;
        let start = self.start;
        let end = start + length;
        self.start = end + 1;
        Some(Line {
            bytes: &self.space[start..end],
        })
    }
}
