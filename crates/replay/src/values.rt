// The lines about numbers alone, for which nothing is kept.
use crate::line::Line;
use crate::print;
use crate::print::Bits;
use mono_input_volume_controller::speech_level::get_speech_level_rms_error_db;

fn volume_step<R: Print>(rt: &R, line: Line) {
    let answer = gain_map::compute_volume_update(
        line.number(0),
        line.number(1),
        line.number(2),
        line.number(3),
    );
    match answer {
        Ok(v) => print::number(rt, v),
        Err(cause) => print::refusal(rt, cause),
    }
}

fn print_error<R: Print>(rt: &R, error: Option<i32>) {
    match error {
        None => print::none(rt),
        Some(db) => print::number(rt, db),
    }
}

fn speech_error<R: Print>(rt: &R, level: f32, min: i32, max: i32) {
    let answer = get_speech_level_rms_error_db(Some(level), min, max);
    match answer {
        Err(cause) => print::refusal(rt, cause),
        Ok(error) => print_error(rt, error),
    }
}

// The answer to a line, by its letter.
pub fn answer<R: Print>(rt: &R, line: Line) {
    match line.letter() {
        b'S' => volume_step(rt, line),
        b'Q' => speech_error(rt, line.float(0), line.number(1), line.number(2)),
        b'w' => print::number(rt, levels::rounding::round(line.float(0))),
        b'a' => print::show(rt, Bits(levels::parts::magnitude(line.float(0)))),
        b'd' => print::show(rt, levels::level::peak_level(line.float(0))),
        b'h' => print::show(rt, levels::level::mean_square_level(line.float(0))),
        b'L' => print::show(rt, levels::level::float_s16_to_dbfs(line.float(0))),
        _ => {}
    }
}
