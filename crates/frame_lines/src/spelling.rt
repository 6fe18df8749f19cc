// One spelling of a frame line: a line is walked once, from field to field, straight into the output, where the grammar is tested.
ghost use Rattle.std.specs.Prelude.{◌≡◌, ◌+◌, ◌≤◌, ◌<◌, map, length};
ghost use Rattle.std.proofs.Math.Seq.{paste};
ghost use Rattle.frame_lines.specs.Forgiven.{lowered};
ghost use Rattle.frame_lines.specs.Walk.{FieldBehind, FieldTo, WalkedAs, forgiven_length, RespelledAs};

use crate::line::{MOST_CHARACTERS, is_well_formed};
use crate::search::next_of;

// Why a line is not spelled: it is malformed, or the slice is no longer than the line.
#[derive(Clone, Copy, Debug, PartialEq, Eq)]
pub enum Unspelled {
    Malformed,
    NoRoom,
}

// What was put of a line: how many fields, and how many bytes.
#[derive(Clone, Copy)]
struct Walked {
    count: usize,
    length: usize,
}

// A text from a place on, in small letters.
fn put_small(out: &mut [u8], at: usize, text: &[u8])
    requires { at + length text.now ≤ length out.old }
    ensures { out.new ≡ paste out.old at (map lowered text.now) (length text.now) }
{
    for (i, c) in text.iter().enumerate() {
        out[at + i] = c.to_ascii_lowercase();
    }
}

// The first place from `at` on that has no blank.
fn behind_blanks(line: &[u8], at: usize) -> usize
    requires { at ≤ length line.now }
    ensures { FieldBehind line.now at result }
{
    for i in at..line.len() {
        if line[i] != b' ' {
            return i;
        }
    }
    line.len()
}

// The place behind the field that `at` is in.
fn field_end(line: &[u8], at: usize) -> usize
    requires { at ≤ length line.now }
    ensures { FieldTo line.now at result }
{
    match next_of(line, at, b' ') {
        Some(end) => end,
        None => line.len(),
    }
}

// The fields of a line, each with a blank behind it.
fn put_fields(line: &[u8], out: &mut [u8]) -> Walked
    requires { length line.now < length out.old }
    ensures { WalkedAs line.now out.old out.new result }
{
    let mut count = 0;
    let mut length = 0;
    let mut from = behind_blanks(line, 0);
    // From field to field: no index is counted.
    while from < line.len() {
        let end = field_end(line, from);
        put_small(out, length, &line[from..end]);
        length += end - from;
        out[length] = b' ';
        length += 1;
        count += 1;
        from = behind_blanks(line, end);
    }
    Walked { count, length }
}

// How many of those bytes are the line: three fields keep the blank behind them, which stands before an empty sample field.
fn forgiven_length(count: usize, length: usize) -> usize
    ensures { result ≡ forgiven_length count length }
{
    if count == 3 {
        return length;
    }
    if length == 0 {
        return 0;
    }
    length - 1
}

// The base spelling of a line, without its line feed, at the beginning of a slice that is longer than the line, and its length.
pub fn respell(line: &[u8], out: &mut [u8]) -> Result<usize, Unspelled>
    ensures { RespelledAs line.now out.old out.new result }
{
    if line.len() > MOST_CHARACTERS {
        return Err(Unspelled::Malformed);
    }
    if out.len() <= line.len() {
        return Err(Unspelled::NoRoom);
    }
    let walked = put_fields(line, out);
    let n = forgiven_length(walked.count, walked.length);
    if is_well_formed(&out[..n]) {
        return Ok(n);
    }
    Err(Unspelled::Malformed)
}
