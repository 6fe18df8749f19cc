// What a predictor's rings and a controller's control hold.
ghost use Rattle.clipping_predictor_level_buffer.specs.Ring.{Good as GoodRing};
ghost use Rattle.clipping_predictor.specs.Predictor.{Good as GoodPredictor};
ghost use Rattle.input_volume_controller.specs.Control.{Good as GoodControl};

use crate::print;
use crate::print::Parts;
use clipping_predictor::ClippingPredictor;
use clipping_predictor_level_buffer::ClippingPredictorLevelBuffer;
use clipping_predictor_level_buffer::level::Level;
use input_volume_controller::VolumeControl;
use mono_input_volume_controller::mono::MonoInputVolumeController;

// ---- rings

// Which records of a ring are shown.
#[derive(Clone, Copy)]
pub enum Records {
    Newest,
    All,
}

fn print_level<R: Print>(rt: &R, level: Level) {
    let _ = print!(rt; ":{}", Parts(level, ":"));
}

fn print_record<R: Print>(rt: &R, record: Option<Level>) {
    match record {
        None => print::show(rt, ""),
        Some(level) => print_level(rt, level),
    }
}

// So many records are shown.
fn count_of(size: usize, records: Records) -> usize {
    match records {
        Records::Newest => 1,
        Records::All => size,
    }
}

// How many records, and the newest, or all from the oldest on.
fn print_ring<R: Print>(rt: &R, ring: ClippingPredictorLevelBuffer, records: Records)
    requires { GoodRing ring }
{
    let size = ring.size;
    print::show(rt, size);
    for age in (0..count_of(size, records)).rev() {
        print_record(rt, ring.stored_at(age));
    }
}

// Each ring of a predictor that is on, between two texts.
pub fn print_rings<R: Print>(
    rt: &R,
    predictor: ClippingPredictor,
    before: &str,
    records: Records,
    after: &str,
)
    requires { GoodPredictor predictor }
{
    if !predictor.settings.enabled {
        return;
    }
    for ring in &predictor.rings[..predictor.channels] {
        print::show(rt, before);
        print_ring(rt, *ring, records);
        print::show(rt, after);
    }
}

// ---- a control

// A channel's ceiling, last volume, capture, check, startup, volume, frames, speech frames and first frame.
fn print_channel<R: Print>(rt: &R, m: MonoInputVolumeController) {
    let used = u8::from(m.used);
    let check = u8::from(m.check);
    let _ = print!(rt; " m={},{},{used},{check}", m.ceiling, m.last);
    let startup = u8::from(m.startup);
    let first = u8::from(m.first);
    let _ = print!(rt; ",{startup},{},{},{},{first}", m.volume, m.frames, m.speech);
}

fn print_channels<R: Print>(rt: &R, control: VolumeControl)
    requires { GoodControl control }
{
    let channels = control.channels;
    for m in &channels.items[..channels.count] {
        print_channel(rt, *m);
    }
}

// The volume that is pending, if there is one.
fn print_pending<R: Print>(rt: &R, applied: Option<u8>) {
    print::show(rt, " a=");
    match applied {
        None => print::show(rt, "-"),
        Some(v) => print::show(rt, v),
    }
}

// All of it, up to what begins the rings.
pub fn print_control<R: Print>(rt: &R, control: VolumeControl)
    requires { GoodControl control }
{
    let volume = control.volume;
    let _ = print!(rt; " v={volume}");
    let applied = control.applied;
    print_pending(rt, applied);
    let used = u8::from(control.used);
    let since = control.since;
    let controlling = control.controlling % 256;
    let _ = print!(rt; " c={used} k={since} g={controlling}");
    print_channels(rt, control);
    print::show(rt, " r=");
}
