// What one channel's ring leads to: the tests of the three modes on the metrics of its two windows, and what near ones would lead to on their other side.
ghost use Rattle.std.specs.Prelude.{◌≡◌, ◌+◌, ◌≤◌, ◌&&◌, ltb, nat_abs, ℕ};
ghost use Rattle.clipping_predictor_level_buffer.specs.Ring.{stored};
ghost use Rattle.levels.specs.declared.decibels.Decibels.{Decibels};
ghost use Rattle.levels.specs.declared.decibels.Decibels.TheVariants.{Finite};
ghost use Rattle.levels.specs.Decibels.{near, Bounded};
ghost use Rattle.clipping_predictor.specs.Tree.{Tree, leaf};
ghost use Rattle.clipping_predictor.specs.Settings.{Good};
ghost use Rattle.clipping_predictor.specs.GoodFor.{GoodFor};
ghost use Rattle.clipping_predictor.specs.Estimate.{drop_by, adaptive_drop, whole_db, nearest_whole, max_gain_change, projected_peak, crest_tree, event_tree, projected_tree, peak_tree, adaptive_tree, ceiling_tree, mode_tree, windows_tree, estimate_tree, CrestFactor, ProjectedPeak, projected_limit};
ghost use Rattle.clipping_predictor.specs.declared.modes.Estimated.{Estimated};
ghost use Rattle.clipping_predictor.specs.Turned.{only, beside, tested, estimated};
ghost use Rattle.clipping_predictor.specs.AllRings.{joined, estimated_for};

use crate::settings::{ClippingPredictorMode, Settings};
use clipping_predictor_level_buffer::ClippingPredictorLevelBuffer;
use clipping_predictor_level_buffer::level::Level;
use levels::decibels::{Decibels, are_near};
use levels::level::{MIN_LEVEL_DBFS, float_s16_to_dbfs, mean_square_level, peak_level};
use numbers::refusal::Refusal;

// What an estimate is asked with: the level, the default step, and the ends between which a new level is held.
#[derive(Clone, Copy)]
pub struct Asked {
    pub level: u8,
    pub step: u8,
    pub least: u8,
    pub most: u8,
}

// How far the level is to fall, 0 for none, and the least and the largest fall that turns of near tests can lead to.
#[derive(Clone, Copy)]
pub struct Estimated {
    pub drop: u8,
    pub low: u8,
    pub high: u8,
}

// What a prediction goes by: the settings, which are in order, what is asked, and the metrics of the two windows.
#[derive(Clone, Copy)]
struct Prediction {
    settings: Settings,
    asked: Asked,
    window: Level,
    reference: Level,
    ghost good: { Good settings },
}

// The largest change of gain that is asked for, in dB.
pub const CLIPPING_PREDICTOR_MAX_GAIN_CHANGE: u32 = 15;

fn drop_by(a: Asked, step: u8) -> u8
    ensures { result ≡ drop_by a step }
{
    let lower = a.level.saturating_sub(step);
    a.level.saturating_sub(lower.max(a.least).min(a.most))
}

fn compute_crest_factor(l: Level) -> Decibels
    ensures { CrestFactor l result }
{
    peak_level(l.max) - mean_square_level(l.average)
}

// A drop that no near test led to.
fn sure(drop: u8) -> Estimated
    ensures { result ≡ only drop }
{
    Estimated {
        drop,
        low: drop,
        high: drop,
    }
}

// After a near test: where its outcome leads, and where its turn does.
fn both_ways(a: Estimated, b: Estimated) -> Estimated
    ensures { result ≡ beside a b }
{
    Estimated {
        drop: a.drop,
        low: a.low.min(b.low),
        high: a.high.max(b.high),
    }
}

// What a test leads to, by its outcome and whether it was near.
fn after_test(outcome: bool, near: bool, held: Estimated, failed: Estimated) -> Estimated
    ensures { result ≡ tested outcome near held failed }
{
    if near {
        if outcome {
            return both_ways(held, failed);
        }
        return both_ways(failed, held);
    }
    if outcome {
        return held;
    }
    failed
}

// The threshold in whole dB, toward zero.
fn whole_db(threshold: i32) -> i32
    ensures { result ≡ whole_db threshold }
{
    threshold / 1000 * 1000
}

fn estimate_peak_value(window: Level, reference: Level) -> Decibels
    ensures { ProjectedPeak window reference result }
{
    compute_crest_factor(reference)
        + mean_square_level(window.average)
        + Decibels::Finite(MIN_LEVEL_DBFS)
}

// The drop for a ceiling of k dB.
fn adaptive_drop(a: Asked, k: u32) -> u8
    ensures { result ≡ adaptive_drop a k }
{
    let size = k.min(CLIPPING_PREDICTOR_MAX_GAIN_CHANGE);
    let change = numbers::sign::with_sign(true, size);
    let to = gain_map::walk_from(change, a.level, a.least, a.most);
    drop_by(a, a.level.saturating_sub(to).max(a.step))
}

// The whole dB from 0 up that is nearest to z.
fn nearest_whole(z: i32) -> u32
    ensures { result ≡ nearest_whole z }
{
    if z < 0 {
        return 0;
    }
    (z.unsigned_abs() + 500) / 1000
}

fn near_whole(k: u32, z: i32, whole: i32) -> bool
    ensures { result ≡ (ltb k max_gain_change && near (Finite z) (Finite whole)) }
{
    k < CLIPPING_PREDICTOR_MAX_GAIN_CHANGE && are_near(Decibels::Finite(z), Decibels::Finite(whole))
}

// The ceiling is taken as a test against the nearest whole dB.
fn ceiling(a: Asked, z: i32) -> Estimated
    requires { nat_abs z ≤ projected_limit }
    ensures { result ≡ estimated (ceiling_tree a z (nearest_whole z)) }
{
    let k = nearest_whole(z);
    // Proved to fit; `try_from` would have an arm that never runs.
    let whole = (k * 1000) as i32;
    let near = near_whole(k, z, whole);
    if near {
        let held = sure(adaptive_drop(a, k));
        let failed = sure(adaptive_drop(a, k + 1));
        return after_test(z <= whole, true, held, failed);
    }
    if z <= whole {
        return sure(adaptive_drop(a, k));
    }
    sure(adaptive_drop(a, k + 1))
}

fn adaptive(a: Asked, projected: Decibels) -> Estimated
    requires { Bounded projected_limit projected }
    ensures { result ≡ estimated (adaptive_tree a projected) }
{
    match projected {
        Decibels::Finite(z) => ceiling(a, z),
        Decibels::PlusInfinity => sure(adaptive_drop(a, CLIPPING_PREDICTOR_MAX_GAIN_CHANGE)),
        Decibels::MinusInfinity => no_estimate(),
        Decibels::NotANumber => no_estimate(),
    }
}

// Of each test it is known at once whether it surely has an outcome: then what follows the other is not worked out.
impl Prediction {
    // The second test of an event.
    fn event(self) -> Estimated
        ensures { result ≡ estimated (crest_tree self.settings.margin self.window self.reference self.asked) }
    {
        let crest = compute_crest_factor(self.window);
        let wanted = compute_crest_factor(self.reference) - Decibels::Finite(self.settings.margin);
        let held = sure(drop_by(self.asked, self.asked.step));
        let near = are_near(crest, wanted);
        after_test(crest < wanted, near, held, sure(0))
    }

    fn predict_clipping_event(self) -> Estimated
        ensures { result ≡ estimated (event_tree self.settings.threshold self.settings.margin self.window self.reference self.asked) }
    {
        let peak = float_s16_to_dbfs(self.window.max);
        let threshold = Decibels::Finite(self.settings.threshold);
        let near = are_near(peak, threshold);
        let quiet = peak <= threshold;
        if quiet && !near {
            return sure(0);
        }
        after_test(quiet, near, sure(0), self.event())
    }

    // The second test of a peak, and what follows a projected peak above the threshold.
    fn peak<F: Fn(Decibels) -> Estimated>(self, edge: i32, above: F) -> Estimated
        requires { (projected : Decibels) → Bounded projected_limit projected → F.pre above projected }
        ensures { (t : Tree ℕ) → ((r : Estimated) → F.post above (projected_peak self.window self.reference) r → r ≡ estimated t) → result ≡ estimated (projected_tree edge (projected_peak self.window self.reference) t) }
    {
        let projected = estimate_peak_value(self.window, self.reference);
        let threshold = Decibels::Finite(edge);
        let near = are_near(threshold, projected);
        let is_above = threshold < projected;
        if !is_above && !near {
            return sure(0);
        }
        after_test(is_above, near, above(projected), sure(0))
    }

    fn predict_clipping_peak<F: Fn(Decibels) -> Estimated>(self, above: F) -> Estimated
        requires { (projected : Decibels) → Bounded projected_limit projected → F.pre above projected }
        ensures { (t : Tree ℕ) → ((r : Estimated) → F.post above (projected_peak self.window self.reference) r → r ≡ estimated t) → result ≡ estimated (peak_tree self.settings.threshold self.window self.reference t) }
    {
        let level = float_s16_to_dbfs(self.window.max);
        let edge = whole_db(self.settings.threshold);
        let threshold = Decibels::Finite(edge);
        let near = are_near(level, threshold);
        let quiet = level <= threshold;
        if quiet && !near {
            return sure(0);
        }
        after_test(quiet, near, sure(0), self.peak(edge, above))
    }

    fn by_mode(self) -> Estimated
        ensures { result ≡ estimated (mode_tree self.settings.mode self.settings self.window self.reference self.asked) }
    {
        let a = self.asked;
        match self.settings.mode {
            ClippingPredictorMode::ClippingEventPrediction => self.predict_clipping_event(),
            ClippingPredictorMode::AdaptiveStepClippingPeakPrediction => {
                self.predict_clipping_peak(|projected| adaptive(a, projected))
            }
            ClippingPredictorMode::FixedStepClippingPeakPrediction => {
                self.predict_clipping_peak(|_| sure(drop_by(a, a.step)))
            }
        }
    }
}

pub fn no_estimate() -> Estimated
    ensures { result ≡ estimated (leaf 0) }
{
    sure(0)
}

fn from_windows(
    s: Settings,
    a: Asked,
    newest: Result<Option<Level>, Refusal>,
    older: Result<Option<Level>, Refusal>,
) -> Estimated
    requires { Good s }
    ensures { result ≡ estimated (windows_tree s a newest older) }
{
    // Not the pattern `Ok(Some(window))`: where it does not fit, the check knows that there is an `Ok`, and not that there is no level in it.
    let Some(window) = newest.unwrap_or(None) else {
        return no_estimate();
    };
    let Some(reference) = older.unwrap_or(None) else {
        return no_estimate();
    };
    Prediction {
        settings: s,
        asked: a,
        window,
        reference,
    }
    .by_mode()
}

// The estimate of one channel, from its ring. A predictor that is off has none, whatever its ring holds.
pub fn estimate_for(s: Settings, ring: ClippingPredictorLevelBuffer, a: Asked) -> Estimated
    requires { GoodFor s ring }
    ensures { result ≡ estimated (estimate_tree s (stored ring) a) }
{
    if !s.enabled || a.level <= a.least {
        return no_estimate();
    }
    let newest = ring.partial_metrics(0, s.window);
    let older = ring.partial_metrics(s.delay, s.reference);
    from_windows(s, a, newest, older)
}

// What a ring answers. Out of line for the stack's sake.
#[inline(never)]
pub fn answered(
    s: Settings,
    ring: ClippingPredictorLevelBuffer,
    question: Option<Asked>,
) -> Estimated
    requires { GoodFor s ring }
    ensures { result ≡ estimated_for question s (stored ring) }
{
    question.map_or(no_estimate(), |a| estimate_for(s, ring, a))
}

// The estimates of two channels.
pub fn joined(a: Estimated, b: Estimated) -> Estimated
    ensures { result ≡ joined a b }
{
    Estimated {
        drop: a.drop.max(b.drop),
        low: a.low.max(b.low),
        high: a.high.max(b.high),
    }
}
