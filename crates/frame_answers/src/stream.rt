// The answers to a stream of lines that comes in pieces of any size. Memory is constant: a controller, and the beginning of a line that a piece's end has cut.
ghost use Rattle.std.specs.Prelude.{◌≡◌, [], ◌++◌};
ghost use Rattle.frame_lines.specs.Answer.{held};
ghost use Rattle.frame_lines.specs.Stream.{ended};
ghost use Rattle.frame_lines.specs.Feeds.{kept};
ghost use Rattle.frame_answers.specs.Ready.{sized_of, ready_of};
ghost use Rattle.frame_answers.specs.Stream.{view_of, Good, Becomes, fresh_state, after_piece, finished_text, FedAs, EndedAs};

use crate::answers::{answer_frame, answer_line};
use clipping_predictor_level_buffer::level::MAX_SAMPLES_PER_CHANNEL;
use frame_lines::answer::{LONGEST, Reply, Text, answer, put_reply};
use frame_lines::line::{Frame, MOST_SAMPLES, parse};
use frame_lines::lines::{Begun, next_feed};
use input_volume_controller::InputVolumeController;
use mono_input_volume_controller::config::Config;
use numbers::refusal::Refusal;

// Its good order is a clause and no field: a caller may write any length of what is begun.
#[derive(Clone, Copy)]
pub struct Stream {
    pub controller: InputVolumeController,
    pub begun: Begun,
}

// What a piece leads to: the stream after it, how much of the piece is used, and how many bytes of answers were put.
#[derive(Clone, Copy)]
pub struct Fed {
    pub stream: Stream,
    pub used: usize,
    pub written: usize,
}

// A refusal has a stream too, so it stands beside the reply and not in it.
// What the end of a line leads to: the stream after it, and the answer.
#[derive(Clone, Copy)]
struct Ended {
    stream: Stream,
    reply: Reply,
}

// A line in order: a frame without samples, or with more than a channel has, is refused by every controller.
fn sized(frame: Frame) -> Result<Frame, Refusal>
    ensures { result ≡ sized_of frame }
{
    if frame.count < 1 || MAX_SAMPLES_PER_CHANNEL < frame.count {
        return Err(Refusal::FrameSize);
    }
    Ok(frame)
}

// A line before a controller hears of it, as it was parsed: refused whatever the controller is, or a frame of a size that may fit.
fn ready(parsed: Option<Frame>) -> Result<Frame, Refusal>
    ensures { result ≡ ready_of parsed }
{
    match parsed {
        Some(frame) => sized(frame),
        None => Err(Refusal::FrameLine),
    }
}

impl Stream {
    // One channel, default settings, and no line has begun.
    pub fn new() -> Stream
        ensures { Becomes fresh_state result }
    {
        let made = InputVolumeController::new(1, Config::default());
        Stream {
            controller: made.controller,
            begun: Begun::new(),
        }
    }

    // A line ends behind this part of it.
    fn ended(self, part: &[u8]) -> Ended
        requires { Good self }
        ensures { EndedAs (view_of self) part.now result }
    {
        let whole = self.begun.append(part);
        let answered = answer_line(self.controller, whole.text());
        Ended {
            stream: Stream {
                controller: answered.controller,
                begun: whole.cleared(),
            },
            reply: answered.reply,
        }
    }

    // No line ends in this part: it is kept.
    fn keeping(self, part: &[u8]) -> Stream
        requires { Good self × (ended (kept self.begun ++ part.now) ≡ []) }
        ensures { Becomes (after_piece (view_of self) part.now) result }
    {
        Stream {
            controller: self.controller,
            begun: self.begun.append(part),
        }
    }

    // `feed` where no line has begun: every line lies within the piece. One that every controller refuses is answered without it.
    fn whole_lines(self, piece: &[u8], out: &mut [u8]) -> Fed
        requires { Good self × (kept self.begun ≡ []) }
        ensures { FedAs (view_of self) piece.now out.old out.new result }
    {
        let begun = self.begun;
        let mut controller = self.controller;
        let mut samples = [0.0f32; MOST_SAMPLES];
        let mut at = 0;
        let mut written = 0;
        let mut room = out.len() / LONGEST;
        // From line to line, as long as there is room: no index is counted.
        while 0 < room {
            let Some(end) = next_feed(piece, at) else {
                let stream = Stream { controller, begun };
                return Fed {
                    stream: stream.keeping(&piece[at..]),
                    used: piece.len(),
                    written,
                };
            };
            let line = ready(parse(&piece[at..end], &mut samples));
            at = end + 1;
            room -= 1;
            match line {
                Err(cause) => {
                    written = put_reply(out, written, Err(cause));
                }
                Ok(frame) => {
                    let reply = answer_frame(&mut controller, frame, &samples[..frame.count]);
                    written = put_reply(out, written, reply);
                }
            }
        }
        Fed {
            stream: Stream { controller, begun },
            used: at,
            written,
        }
    }

    // The lines that end in a piece, as many as `out` surely has room for, are answered, and their answers put at its beginning. If it has room for the answers to all of them, the whole piece is used.
    pub fn feed(self, piece: &[u8], out: &mut [u8]) -> Fed
        requires { Good self }
        ensures { FedAs (view_of self) piece.now out.old out.new result }
    {
        if self.begun.length == 0 {
            return self.whole_lines(piece, out);
        }
        let room = out.len();
        if room < LONGEST {
            return Fed {
                stream: self,
                used: 0,
                written: 0,
            };
        }
        let Some(end) = next_feed(piece, 0) else {
            return Fed {
                stream: self.keeping(piece),
                used: piece.len(),
                written: 0,
            };
        };
        let first = self.ended(&piece[..end]);
        let from = end + 1;
        let start = put_reply(out, 0, first.reply);
        // The others get the room of one answer less.
        let stop = start + (room - LONGEST);
        let mut rest = first
            .stream
            .whole_lines(&piece[from..], &mut out[start..stop]);
        rest.used += from;
        rest.written += start;
        rest
    }

    // The answer to the last line, if it lacks its line feed, or nothing.
    pub fn finish(self) -> Text
        requires { Good self }
        ensures { result ≡ held (finished_text (view_of self)) }
    {
        if self.begun.length == 0 {
            return Text {
                bytes: [0u8; LONGEST],
                length: 0,
            };
        }
        let answered = answer_line(self.controller, self.begun.text());
        answer(answered.reply)
    }
}
