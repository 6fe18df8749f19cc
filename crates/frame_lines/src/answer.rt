// The line that answers a line.
ghost use Rattle.std.specs.Prelude.{◌≡◌, ◌+◌, ◌≤◌, ◌<◌, length};
ghost use Rattle.std.proofs.Math.Seq.{paste};
ghost use Rattle.frame_lines.specs.Answer.{digit_character, mark, longest, volume_text, number_text, answer_of, held, PutAs};

use numbers::refusal::Refusal;

// A recommended volume, and whether its frame is near.
#[derive(Clone, Copy)]
pub struct Recommended {
    pub volume: u8,
    pub near: bool,
}

// What there is to say: a recommendation, or why the line is refused.
pub type Reply = Result<Recommended, Refusal>;

// The most bytes that an answer has.
pub const LONGEST: usize = 5;

// The bytes of an answer, its line feed among them: the first `length` of these. An array, and no `ArrayVec`: that is not `Copy`.
#[derive(Clone, Copy)]
pub struct Text {
    pub bytes: [u8; LONGEST],
    pub length: usize,
}

fn digit_character(n: u8) -> u8
    requires { n < 16 }
    ensures { result ≡ digit_character n }
{
    if n < 10 { b'0' + n } else { b'a' - 10 + n }
}

fn mark_of(near: bool) -> u8
    ensures { result ≡ mark near }
{
    if near { b'n' } else { b'.' }
}

fn volume_text(volume: u8, near: bool) -> Text
    ensures { result ≡ held (volume_text volume near) }
{
    let high = digit_character(volume / 16);
    let low = digit_character(volume % 16);
    let mark = mark_of(near);
    Text {
        bytes: [high, low, b' ', mark, b'\n'],
        length: 5,
    }
}

// The number of a refusal has one or two digits.
fn number_text(n: u32) -> Text
    requires { n < 100 }
    ensures { result ≡ held (number_text n) }
{
    if n < 10 {
        // The casts of this file are proved to fit; `try_from` would have an arm that never runs.
        let digit = b'0' + (n as u8);
        return Text {
            bytes: [b'!', b' ', digit, b'\n', 0],
            length: 4,
        };
    }
    let tens = b'0' + ((n / 10) as u8);
    let ones = b'0' + ((n % 10) as u8);
    Text {
        bytes: [b'!', b' ', tens, ones, b'\n'],
        length: 5,
    }
}

pub fn answer(reply: Reply) -> Text
    ensures { result ≡ held (answer_of reply) }
{
    match reply {
        Ok(recommended) => volume_text(recommended.volume, recommended.near),
        Err(cause) => number_text(cause.number()),
    }
}

// A text from a place on.
fn put(out: &mut [u8], at: usize, text: Text)
    requires { (length text.bytes ≡ longest) × (text.length ≤ longest) × (at + text.length ≤ length out.old) }
    ensures { out.new ≡ paste out.old at text.bytes text.length }
{
    let end = at + text.length;
    out[at..end].copy_from_slice(&text.bytes[..text.length]);
}

// An answer from a place on, and the place behind it. Where there is no room for the longest, nothing is put.
pub fn put_reply(out: &mut [u8], at: usize, reply: Reply) -> usize
    ensures { PutAs (answer_of reply) at out.old out.new result }
{
    let room = out.len();
    if room < LONGEST {
        return at;
    }
    if room - LONGEST < at {
        return at;
    }
    let text = answer(reply);
    put(out, at, text);
    at + text.length
}
