// Replays commands from standard input, one a line, and writes each with its answer, `COMMAND => ANSWER`. The answers to compare with were made outside.
//
//     S change volume minimum maximum   the volume step
//     Q level minimum maximum           the speech error
//     w bits                            rounding to whole
//     a bits                            the magnitude
//     d bits   h bits   L bits          d, h, and d against full scale, in thousandths of a dB
//     G capacity   g mean peak count   z   a ring: made, pushed, emptied
//     m delay items                     its metrics: mean, peak, and the total of the counts
//     P channels on mode window reference delay threshold margin   a predictor: made
//     F floats   X                      a frame of all channels; emptied
//     E channel level step least most   an estimate, with an `n` behind it where it is near
//     N channels and the eleven settings   a controller: made
//     K the same, then mode window reference delay threshold margin   a controller with a predictor of any mode: made
//     O the fields of N                 a controller within the classroom profile: made
//     A volume floats   B volume samples floats   a frame; a frame that says how many samples a channel has
//     W volume samples floats           the same as B, through the word spotter's entry
//     R probability level   I   C switch   D   a recommendation; initialise; the capture switch; all records
//     V samples n volumes floats        a frame with a set of n volumes; with n = 0 the floats follow the 0 and a blank
//     V                                 from here on, all of the controller's state after each of its calls
//     # name                            what the line before shows; no answer
//
// A ring, a predictor and a controller are kept from line to line, each by itself, and each line is handed to the one that answers it. Where a
// record is shown it is `mean:peak:count`, the count of clipped samples in decimal.
#![tactic(auto)]

mod controller;
mod input;
mod line;
mod predictor;
mod print;
mod ring;
mod state;
mod values;

// A loop must be shown to end: no input has so many lines.
fn main(rt: HostRuntime) {
    let mut lines = input::Lines::new();
    let mut ring = ring::fresh();
    let mut predictor = predictor::fresh();
    let mut controller = controller::fresh();
    for _ in 0..u64::MAX {
        let Some(line) = lines.next(&rt) else {
            break;
        };
        print::asked(&rt, line);
        match line.letter() {
            b'S' | b'Q' | b'w' | b'a' | b'd' | b'h' | b'L' => values::answer(&rt, line),
            b'G' | b'g' | b'z' | b'm' => ring = ring.answer(&rt, line),
            b'P' | b'F' | b'X' | b'E' => predictor = predictor.answer(&rt, line),
            b'N' | b'K' | b'O' | b'A' | b'B' | b'W' | b'R' | b'I' | b'C' | b'D' | b'V' =>
                controller = controller.answer(&rt, line),
            // a name, and an empty line
            b'#' | 0 => {}
            _ => print::show(&rt, "unknown"),
        }
        print::show(&rt, "\n");
    }
}
