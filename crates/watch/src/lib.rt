// The signalling watch of a circuit: when a signalling frame is to be sent, and when the trunk is to be conditioned.
#![tactic(auto)]

ghost use Rattle.std.specs.Prelude.{◌≡◌, cond, ◌+◌, leb, Ok};
ghost use Rattle.watch.specs.Table.{table, conditioned, change, sends_both};
ghost use Rattle.refusals.specs.Refusals.{refusal_of};
ghost use Rattle.watch.specs.Watch.{states_offered, refresh_offered, keep_alive_offered, refusal21, refusal14, refusal18, brought12, event_refusal, start_refusal, when_past, in_use, reading, brought, sent_after, standing, event_row, bits_after, taken_after, na_of, if_sent, fresh_watch, answered, start_answer, event_answer, start_paper, watched_paper};

mod number;
mod text;

pub use number::UnknownState;
use refusals::{Refusal, refusal_12, refuse};

// The clocks are counts of ms up to 2^62.
const CLOCK_LIMIT: u64 = 1 << 62;

// The states of the originating end, G.764 6.5.1.
#[derive(Clone, Copy, Debug, PartialEq, Eq)]
pub enum Originating {
    Norm,
    Alarm,
}

// The states of the terminating end, G.764 6.5.2.
#[derive(Clone, Copy, Debug, PartialEq, Eq)]
pub enum Terminating {
    Norm,
    LAlarm,
    RAlarm,
}

// A circuit's watch. Times are in ms; the clocks are those of the last frame sent, the last frame taken and the last event.
#[derive(Clone, Copy, Debug, PartialEq, Eq)]
pub struct Watch {
    pub states: u8,
    pub refresh: u32,
    pub keepalive: u32,
    pub originating: Originating,
    pub terminating: Terminating,
    pub bits: u8,
    pub lastsent: u64,
    pub lasttaken: u64,
    pub lastclock: u64,
}

// What a host tells of: time passing, the bits and the facility alarm as read, the N/A bit of a frame taken.
#[derive(Clone, Copy, Debug, PartialEq, Eq)]
pub enum Event {
    Passing,
    Reading { bits: u8, alarm: bool },
    Frame { na: u8 },
}

#[derive(Clone, Copy, Debug, PartialEq, Eq)]
pub enum Sends {
    Nothing,
    Transition,
    Refresh,
}

#[derive(Clone, Copy, Debug, PartialEq, Eq)]
pub enum Conditioning {
    Unchanged,
    Begins,
    Ends,
}

// What an event answers: the frame to be sent with its bits and N/A, whether conditioning changes, and the watch after it.
#[derive(Clone, Copy, Debug, PartialEq, Eq)]
pub struct Watched {
    pub sends: Sends,
    pub bits: u8,
    pub na: u8,
    pub conditioning: Conditioning,
    pub after: Watch,
}

// What comes upon a circuit, by which the table goes.
#[derive(Clone, Copy)]
enum Coming {
    NoChange,
    RunOut,
    NormalFrame,
    AlarmFrame,
    FacilityAlarm,
    SameBits,
    ChangedBits,
    RefreshDue,
}

#[derive(Clone, Copy)]
struct Row {
    originating: Originating,
    terminating: Terminating,
    sends: Sends,
    conditioning: Conditioning,
}

// The table of G.764 6.2 and 6.4, column by column: the terminating end's next state,
fn terminating_next(t: Terminating, coming: Coming) -> Terminating
    ensures { (o : Originating) → result ≡ (table o t coming).terminating }
{
    match coming {
        Coming::RunOut => Terminating::LAlarm,
        Coming::NormalFrame => Terminating::Norm,
        Coming::AlarmFrame => Terminating::RAlarm,
        _ => t,
    }
}

// the originating end's,
fn originating_next(o: Originating, coming: Coming) -> Originating
    ensures { (t : Terminating) → result ≡ (table o t coming).originating }
{
    match coming {
        Coming::FacilityAlarm => Originating::Alarm,
        Coming::SameBits | Coming::ChangedBits => Originating::Norm,
        _ => o,
    }
}

// and what is sent.
fn sends_next(coming: Coming) -> Sends
    ensures { (o : Originating) (t : Terminating) → result ≡ (table o t coming).sends }
{
    match coming {
        Coming::ChangedBits => Sends::Transition,
        Coming::RefreshDue => Sends::Refresh,
        _ => Sends::Nothing,
    }
}

fn conditioned(t: Terminating) -> bool
    ensures { result ≡ conditioned t }
{
    t != Terminating::Norm
}

// Conditioning begins or ends where an event moves the circuit into the conditioned states or out of them.
fn change(before: bool, after: bool) -> Conditioning
    ensures { result ≡ change before after }
{
    match (before, after) {
        (false, true) => Conditioning::Begins,
        (true, false) => Conditioning::Ends,
        _ => Conditioning::Unchanged,
    }
}

fn states_offered(states: u8) -> bool
    ensures { result ≡ states_offered states }
{
    matches!(states, 0 | 1 | 2 | 4 | 16)
}

fn refresh_offered(refresh: u32) -> bool
    ensures { result ≡ refresh_offered refresh }
{
    matches!(refresh, 1000 | 5000 | 10000 | 20000)
}

// Twice the keep-alive is judged, since 1.5 times a refresh may be no whole number. By arms, since joined by `||` the four are all worked out, and a start takes half as long again.
fn keep_alive_offered(refresh: u32, keepalive: u32) -> bool
    ensures { result ≡ keep_alive_offered refresh keepalive }
{
    let once = u64::from(refresh);
    let twice = u64::from(keepalive) * 2;
    match twice {
        n if n == once * 3 => true,
        n if n == once * 5 => true,
        n if n == once * 7 => true,
        n => n == once * 9,
    }
}

// States and times are three numbers, as the watch has them: a struct of them for the calls that start it would be no plainer.
fn refusal_21(states: u8, refresh: u32, keepalive: u32) -> Result<(), Refusal>
    ensures { refusal_of result ≡ refusal21 states refresh keepalive }
{
    let offered = states_offered(states)
        && refresh_offered(refresh)
        && keep_alive_offered(refresh, keepalive);
    refuse(!offered, Refusal::NotOffered)
}

// A kept clock above the limit or later than the last event's.
fn refusal_14(w: Watch) -> Result<(), Refusal>
    ensures { refusal_of result ≡ refusal14 w }
{
    let last = w.lastclock;
    refuse(
        CLOCK_LIMIT < last || last < w.lastsent || last < w.lasttaken,
        Refusal::Record,
    )
}

fn refusal_18(last: u64, clock: u64) -> Result<(), Refusal>
    ensures { refusal_of result ≡ refusal18 last clock }
{
    refuse(clock < last || CLOCK_LIMIT < clock, Refusal::Clock)
}

// 12 of what the event brings.
fn brought_12(event: Event) -> Result<(), Refusal>
    ensures { refusal_of result ≡ brought12 event }
{
    match event {
        Event::Passing => Ok(()),
        Event::Reading { bits, .. } => refusal_12(bits, 0),
        Event::Frame { na } => refusal_12(0, na),
    }
}

// The order, left at the first number that applies.
#[tactic(auto, using(refusals::proofs::RefusalLaws::judged), unfolding(crate::specs::Watch::event_refusal))]
fn event_refusal(w: Watch, clock: u64, event: Event) -> Result<(), Refusal>
    ensures { refusal_of result ≡ event_refusal w clock event }
{
    refusal_21(w.states, w.refresh, w.keepalive)?;
    refusal_14(w)?;
    refusal_18(w.lastclock, clock)?;
    refusal_12(w.bits, 0)?;
    brought_12(event)
}

#[tactic(auto, using(refusals::proofs::RefusalLaws::judged), unfolding(crate::specs::Watch::start_refusal))]
fn start_refusal(states: u8, refresh: u32, keepalive: u32, clock: u64) -> Result<(), Refusal>
    ensures { refusal_of result ≡ start_refusal states refresh keepalive clock }
{
    refusal_21(states, refresh, keepalive)?;
    refusal_18(0, clock)
}

// What comes when the clock is ms or more past from. The difference is judged, for the sum may not fit.
fn when_past(clock: u64, from: u64, ms: u32, coming: Coming) -> Coming
    ensures { result ≡ when_past clock from ms coming }
{
    if from <= clock && u64::from(ms) <= clock - from {
        coming
    } else {
        Coming::NoChange
    }
}

// Of four bits, those in use.
fn in_use(states: u8, bits: u8) -> u8
    ensures { result ≡ in_use states bits }
{
    match states {
        2 => bits / 8,
        4 => bits / 4,
        16 => bits,
        _ => 0,
    }
}

// What a reading brings to a circuit whose bits were kept.
fn reading(states: u8, kept: u8, bits: u8, alarm: bool) -> Coming
    ensures { result ≡ reading states kept bits alarm }
{
    if alarm {
        Coming::FacilityAlarm
    } else if in_use(states, bits) == in_use(states, kept) {
        Coming::SameBits
    } else {
        Coming::ChangedBits
    }
}

fn brought(w: Watch, event: Event) -> Coming
    ensures { result ≡ brought w event }
{
    match event {
        Event::Passing => Coming::NoChange,
        Event::Reading { bits, alarm } => reading(w.states, w.bits, bits, alarm),
        Event::Frame { na: 0 } => Coming::NormalFrame,
        Event::Frame { .. } => Coming::AlarmFrame,
    }
}

fn sent_after(sends: Sends, clock: u64, last: u64) -> u64
    ensures { result ≡ sent_after sends clock last }
{
    if sends == Sends::Nothing { last } else { clock }
}

// What the event sends, or else the refresh, where it is due.
fn event_sends(first: Sends, clock: u64, lastsent: u64, refresh: u32) -> Sends
    ensures { result ≡ sends_both first (cond (leb (sent_after first clock lastsent + refresh) clock) Sends.Refresh Sends.Nothing) }
{
    match first {
        Sends::Nothing => sends_next(when_past(clock, lastsent, refresh, Coming::RefreshDue)),
        _ => first,
    }
}

fn standing(w: Watch) -> Row
    ensures { result ≡ standing w }
{
    Row {
        originating: w.originating,
        terminating: w.terminating,
        sends: Sends::Nothing,
        conditioning: Conditioning::Unchanged,
    }
}

// Run-out is judged before what the event brings.
#[tactic(auto, using(crate::proofs::WatchLaws::row_is))]
fn event_row(w: Watch, clock: u64, event: Event) -> Row
    ensures { result ≡ event_row w clock event }
{
    let run_out = when_past(clock, w.lasttaken, w.keepalive, Coming::RunOut);
    let coming = brought(w, event);
    let terminating = terminating_next(terminating_next(w.terminating, run_out), coming);
    Row {
        originating: originating_next(w.originating, coming),
        terminating,
        sends: event_sends(sends_next(coming), clock, w.lastsent, w.refresh),
        conditioning: change(conditioned(w.terminating), conditioned(terminating)),
    }
}

fn bits_after(kept: u8, event: Event) -> u8
    ensures { result ≡ bits_after kept event }
{
    match event {
        Event::Reading { bits, alarm: false } => bits,
        _ => kept,
    }
}

fn taken_after(event: Event, clock: u64, last: u64) -> u64
    ensures { result ≡ taken_after event clock last }
{
    match event {
        Event::Frame { .. } => clock,
        _ => last,
    }
}

fn na_of(o: Originating, t: Terminating) -> u8
    ensures { result ≡ na_of o t }
{
    u8::from(o == Originating::Alarm || t == Terminating::LAlarm)
}

fn if_sent(sends: Sends, x: u8) -> u8
    ensures { result ≡ if_sent sends x }
{
    if sends == Sends::Nothing { 0 } else { x }
}

// The answer to an event that left this row.
#[tactic(auto, unfolding(crate::specs::Watch::answered, crate::specs::Watch::watched_paper))]
fn answered(w: Watch, clock: u64, event: Event, left: Row) -> Watched
    ensures { watched_paper w (Ok result) ≡ answered w clock event left }
{
    let sends = left.sends;
    let bits = bits_after(w.bits, event);
    Watched {
        sends,
        bits: if_sent(sends, bits),
        na: if_sent(sends, na_of(left.originating, left.terminating)),
        conditioning: left.conditioning,
        after: Watch {
            originating: left.originating,
            terminating: left.terminating,
            bits,
            lastsent: sent_after(sends, clock, w.lastsent),
            lasttaken: taken_after(event, clock, w.lasttaken),
            lastclock: clock,
            ..w
        },
    }
}

fn fresh(states: u8, refresh: u32, keepalive: u32, clock: u64) -> Watch
    ensures { result ≡ fresh_watch states refresh keepalive clock }
{
    Watch {
        states,
        refresh,
        keepalive,
        originating: Originating::Norm,
        terminating: Terminating::Norm,
        bits: 0,
        lastsent: clock,
        lasttaken: clock,
        lastclock: clock,
    }
}

// The start of a circuit's watch, both ends in NORM.
#[tactic(auto, using(refusals::proofs::RefusalLaws::judged), unfolding(crate::specs::Watch::start_answer, crate::specs::Watch::start_paper))]
pub fn start(states: u8, refresh: u32, keepalive: u32, clock: u64) -> Result<Watch, Refusal>
    ensures { start_paper result ≡ start_answer states refresh keepalive clock }
{
    start_refusal(states, refresh, keepalive, clock)?;
    Ok(fresh(states, refresh, keepalive, clock))
}

// An event of a circuit's watch, which is handed back moved on. A refused one leaves it as it is.
#[tactic(auto, using(refusals::proofs::RefusalLaws::judged), unfolding(crate::specs::Watch::event_answer, crate::specs::Watch::watched_paper))]
pub fn tell(w: Watch, clock: u64, event: Event) -> Result<Watched, Refusal>
    ensures { watched_paper w result ≡ event_answer w clock event }
{
    event_refusal(w, clock, event)?;
    if w.states == 0 {
        return Ok(answered(w, clock, Event::Passing, standing(w)));
    }
    Ok(answered(w, clock, event, event_row(w, clock, event)))
}
