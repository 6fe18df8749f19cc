// The lines of a stream that comes in pieces. Nothing here knows what a line is for. A line that lies within a piece is a part of it, from one
// line feed to the next; only a line that the piece's end cuts is kept, up to a length that tells that it is too long.
ghost use Rattle.std.specs.Prelude.{◌≡◌, ◌-◌, ◌≤◌, min, length, [], ◌++◌};
ghost use Rattle.frame_lines.specs.Search.{line_feed_from};
ghost use Rattle.frame_lines.specs.Stream.{kept_characters, cut};
ghost use Rattle.frame_lines.specs.Feeds.{Good, kept, Keeps};

use crate::search::next_of;

// So many characters of a line are kept: one more than the longest line has.
pub const KEPT_CHARACTERS: usize = 2001;

// The beginning of a line, whose end is to come: the first `length` of these bytes. An array, since nothing here allocates, and no `ArrayVec`,
// which is not `Copy`, as a stream must be. The bound of the length is asked in `Good` and is no ghost field: that would forbid what a caller may write here.
#[derive(Clone, Copy)]
pub struct Begun {
    pub bytes: [u8; KEPT_CHARACTERS],
    pub length: usize,
}

// The place of the first line feed from `start` on.
pub fn next_feed(bytes: &[u8], start: usize) -> Option<usize>
    ensures { result ≡ line_feed_from bytes.now start }
{
    next_of(bytes, start, b'\n')
}

// How many of `more` characters are still kept behind `length` others.
fn room(length: usize, more: usize) -> usize
    requires { length ≤ kept_characters }
    ensures { result ≡ min more (kept_characters - length) }
{
    more.min(KEPT_CHARACTERS - length)
}

impl Begun {
    // No line has begun.
    pub fn new() -> Begun
        ensures { Keeps [] result }
    {
        Begun {
            bytes: [0u8; KEPT_CHARACTERS],
            length: 0,
        }
    }

    // What is kept of the line.
    pub fn text(&self) -> &[u8]
        requires { Good self.now }
        ensures { result.now ≡ kept self.now }
    {
        &self.bytes[..self.length]
    }

    // The line has ended.
    pub fn cleared(self) -> Begun
        requires { Good self }
        ensures { Keeps [] result }
    {
        let mut r = self;
        r.length = 0;
        r
    }

    // More of the line has come.
    pub fn append(self, part: &[u8]) -> Begun
        requires { Good self }
        ensures { Keeps (cut (kept self ++ part.now)) result }
    {
        let count = room(self.length, part.len());
        let end = self.length + count;
        let mut r = self;
        r.bytes[self.length..end].copy_from_slice(&part[..count]);
        r.length = end;
        r
    }
}
