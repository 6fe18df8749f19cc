// Runs the stream of the frame-line program over many files, each with a fresh controller, and writes the answers to all of them. The gate compares these with answers that came with the files.
// The files stand one after another in standard input, each with a byte behind it that none of them has. They are fed in pieces of many lengths, with room for two answers at a time.
#![tactic(auto)]

ghost use Rattle.std.specs.Prelude.{◌≤◌, ◌<◌, length};
ghost use Rattle.frame_answers.specs.Stream.{Good};

use command_line::input::read_full;
use frame_answers::stream::Stream;

// ASCII's separator of files.
const SEPARATOR: u8 = 28;

// Where the piece that starts at `at` ends: 1 to 611 bytes on.
fn piece_end(at: usize, end: usize) -> usize
    requires { at < end }
    ensures { (at < result) × (result ≤ end) }
{
    at + (end - at).min(at % 611 + 1)
}

// Answers a part of a file, by its places, since a place decides how long the piece there is. Where a write fails there is nobody to tell.
fn answer_part<R: Print>(rt: &R, begun: Stream, text: &[u8]) -> Stream
    requires { Good begun }
    ensures { Good result }
{
    let mut out = [0u8; 12];
    let mut stream = begun;
    let mut at = 0;
    // From piece to piece: a place decides how long the next one is.
    while at < text.len() {
        let end = piece_end(at, text.len());
        let fed = stream.feed(&text[at..end], &mut out);
        stream = fed.stream;
        let _ = rt.write_all(&out[..fed.written]);
        at += fed.used;
    }
    stream
}

// Answers the last line of a file, if it lacks its line feed.
fn finished<R: Print>(rt: &R, stream: Stream)
    requires { Good stream }
{
    let last = stream.finish();
    let _ = rt.write_all(&last.bytes[..last.length]);
}

// Answers what was read, and hands on the stream of the file that has not ended.
fn answer_files<R: Print>(rt: &R, begun: Stream, s: &[u8]) -> Stream
    requires { Good begun }
    ensures { Good result }
{
    let mut stream = begun;
    let mut rest = s;
    // From file to file: no index is counted.
    while let Some(end) = rest.iter().position(|c| *c == SEPARATOR) {
        stream = answer_part(rt, stream, &rest[..end]);
        finished(rt, stream);
        stream = Stream::new();
        rest = &rest[end + 1..];
    }
    answer_part(rt, stream, rest)
}

// A loop must be shown to end: no input has so many pieces.
fn main(rt: HostRuntime) {
    let mut space = [0u8; 65536];
    let mut stream = Stream::new();
    for _ in 0..u64::MAX {
        let n = read_full(&rt, &mut space);
        if n == 0 {
            finished(&rt, stream);
            return;
        }
        stream = answer_files(&rt, stream, &space[..n]);
    }
}
