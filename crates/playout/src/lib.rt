// The play-out decision: when a frame is due, by its fields and the endpoint's record, or the number that refuses it.
#![tactic(auto)]

ghost use Rattle.std.specs.Prelude.{◌≡◌, ◌+◌, ◌≤◌, nat_lt};
ghost use Rattle.refusals.specs.Refusals.{number, refusal_of};
ghost use Rattle.playout.specs.Counts.{missing_between};
ghost use Rattle.playout.specs.Play.{clock_limit, buildout_bad, refusal14, refusal18, in_turn, hold, due_at, stamp_late, refusal17, play_refusal, Due, rseq_after, scheduled_at, refused_with, decision, decision_paper};

use octets::next_number;
use refusals::{Refusal, refuse};

// The play clock is a count of ms up to 2^62.
const CLOCK_LIMIT: u64 = 1 << 62;

// `mlast` is a number, since one above 1 is out of range (14).
#[derive(Clone, Copy, Debug, PartialEq, Eq)]
pub struct Endpoint {
    pub buildout: u8,
    pub rseq: u8,
    pub lastclock: u64,
    pub end: u64,
    pub mlast: u8,
    pub lastnoise: u8,
    pub scheduled: u32,
    pub late: u32,
    pub missing: u32,
}

// What is decided of a frame by its fields, and the record after it, which a refused frame may change too.
#[derive(Clone, Copy, Debug, PartialEq, Eq)]
pub struct Decision {
    pub due: Result<u64, Refusal>,
    pub after: Endpoint,
}

// t is above from + ms; the difference is judged, for the sum may not fit.
fn past(t: u64, from: u64, ms: u64) -> bool
    ensures { result ≡ nat_lt (from + ms) t }
{
    ms < t.saturating_sub(from)
}

pub fn buildout_bad(buildout: u8) -> bool
    ensures { result ≡ buildout_bad buildout }
{
    199 < buildout
}

// The tests are joined by `|`, here and below: a frame that comes is mostly taken, and then all of them are made.
#[tactic(auto, unfolding(crate::specs::Play::record_bad))]
pub fn refusal_14(e: Endpoint) -> Result<(), Refusal>
    ensures { refusal_of result ≡ refusal14 e }
{
    let long = past(e.end, e.lastclock, 455);
    let bad = (15 < e.rseq)
        | buildout_bad(e.buildout)
        | (1 < e.mlast)
        | (15 < e.lastnoise)
        | (CLOCK_LIMIT < e.lastclock)
        | long;
    refuse(bad, Refusal::Record)
}

pub fn refusal_18(e: Endpoint, clock: u64) -> Result<(), Refusal>
    ensures { refusal_of result ≡ refusal18 e clock }
{
    refuse(
        (clock < e.lastclock) | (CLOCK_LIMIT < clock),
        Refusal::Clock,
    )
}

#[tactic(auto, unfolding(crate::specs::Play::in_turn))]
fn in_turn(e: Endpoint, seq: u8) -> bool
    ensures { result ≡ in_turn e seq }
{
    seq != 0 && seq == e.rseq
}

pub fn hold(buildout: u8, stamp: u8) -> u8
    ensures { result ≡ hold buildout stamp }
{
    buildout.saturating_sub(stamp)
}

pub fn stamp_late(buildout: u8, stamp: u8) -> bool
    ensures { result ≡ stamp_late buildout stamp }
{
    buildout < stamp
}

// `due_time` has refused a clock above the limit.
#[tactic(auto, unfolding(crate::specs::Play::due_at))]
fn due_at(e: Endpoint, clock: u64, stamp: u8, seq: u8) -> u64
    requires { clock ≤ clock_limit }
    ensures { result ≡ due_at e clock stamp seq }
{
    if in_turn(e, seq) {
        e.end
    } else {
        e.end.max(clock + u64::from(hold(e.buildout, stamp)))
    }
}

fn refusal_17(e: Endpoint, clock: u64, stamp: u8, seq: u8) -> Result<(), Refusal>
    ensures { refusal_of result ≡ refusal17 e clock stamp seq }
{
    refuse(
        stamp_late(e.buildout, stamp) | (in_turn(e, seq) & (e.end < clock)),
        Refusal::Late,
    )
}

fn rseq_after(seq: u8, more: u8) -> u8
    ensures { result ≡ rseq_after seq more }
{
    if more == 1 { next_number(seq) } else { 0 }
}

// `decide` has refused an RSEQ above 15.
#[tactic(auto, unfolding(crate::specs::Counts::missing_between))]
fn missing_between(r: u8, s: u8) -> u32
    requires { r ≤ 15 }
    ensures { result ≡ missing_between r s }
{
    match (r, s) {
        (0, _) => u32::from(s),
        (_, 0) => 1,
        _ => {
            let went_on = (u32::from(s) + 15 - u32::from(r)) % 15;
            let began = u32::from(s) + 1;
            went_on.min(began)
        }
    }
}

// When the frame is due, or the first number of the order that refuses it.
#[tactic(auto, using(refusals::proofs::RefusalLaws::judged), unfolding(crate::specs::Play::play_refusal))]
fn due_time(
    e: Endpoint,
    clock: u64,
    given: Result<(), Refusal>,
    stamp: u8,
    seq: u8,
) -> Result<u64, Refusal>
    ensures number { refusal_of result ≡ play_refusal e clock (refusal_of given) stamp seq }
    ensures due { Due e clock stamp seq result }
{
    refusal_14(e)?;
    refusal_18(e, clock)?;
    given?;
    let due = due_at(e, clock, stamp, seq);
    refusal_17(e, clock, stamp, seq)?;
    refuse(past(due, clock, 439), Refusal::TooFarAhead)?;
    Ok(due)
}

// A frame that is late, or due too far ahead, was received all the same: it stores its more bit and noise. The late one is
// counted.
#[tactic(auto, unfolding(crate::specs::Play::decision_paper))]
fn refused(e: Endpoint, refusal: Refusal, more: u8, noise: u8) -> Decision
    ensures { decision_paper result ≡ refused_with e (number refusal) more noise }
{
    let stored = Endpoint {
        mlast: more,
        lastnoise: noise,
        ..e
    };
    let after = match refusal {
        Refusal::Late => Endpoint {
            late: e.late.saturating_add(1),
            ..stored
        },
        Refusal::TooFarAhead => stored,
        _ => e,
    };
    Decision {
        due: Err(refusal),
        after,
    }
}

// `decide` has refused what is due later, and an RSEQ above 15.
#[tactic(auto, unfolding(crate::specs::Play::decision_paper))]
fn scheduled(e: Endpoint, clock: u64, seq: u8, more: u8, noise: u8, due: u64) -> Decision
    requires { (due ≤ clock_limit + 439) × (e.rseq ≤ 15) }
    ensures { decision_paper result ≡ scheduled_at e clock seq more noise due }
{
    Decision {
        due: Ok(due),
        after: Endpoint {
            rseq: rseq_after(seq, more),
            lastclock: clock,
            end: due + 16,
            mlast: more,
            lastnoise: noise,
            scheduled: e.scheduled.saturating_add(1),
            missing: e.missing.saturating_add(missing_between(e.rseq, seq)),
            ..e
        },
    }
}

// The decision by the frame's fields; `given` is what the frame itself gives.
#[tactic(auto, using(refusals::proofs::RefusalLaws::judged, crate::proofs::PlayLaws::due_fits), unfolding(crate::specs::Play::decision))]
pub fn decide(
    e: Endpoint,
    clock: u64,
    given: Result<(), Refusal>,
    stamp: u8,
    seq: u8,
    more: u8,
    noise: u8,
) -> Decision
    ensures { decision_paper result ≡ decision e clock (refusal_of given) stamp seq more noise }
{
    match due_time(e, clock, given, stamp, seq) {
        Ok(due) => scheduled(e, clock, seq, more, noise, due),
        Err(refusal) => refused(e, refusal, more, noise),
    }
}
