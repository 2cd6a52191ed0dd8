// The program `walk` on slices: a record's step, the line it prints, and the stream of records.
#![tactic(auto)]

ghost use Rattle.std.specs.Prelude.{◌≡◌, ℕ, ◌+◌, ◌*◌, ◌^◌, ◌≤◌, ◌<◌, List, length};
ghost use Rattle.octets.specs.Octets.{octet};
ghost use Rattle.refusals.specs.Refusals.{number as refusal_number};
ghost use Rattle.onward.specs.Sent.{sent_paper, sent_answer, sent_buffer};
ghost use Rattle.walking.specs.Text.{digits, number, after_number, line, stop_line, Put};
ghost use Rattle.walking.specs.Walk.{at_first, four, allowed, legal, told, made, by_origin, by_node, by_endpoint, outcome, step};
ghost use Rattle.walking.specs.Held.{KindOf, kind_number, frame_of, carried_of, told_of, outcome_of, Stepping};
ghost use Rattle.walking.specs.Stream.{ready, Passed, Filled, Flushed};

use coding::Coding;
use octets::two_octets;
use onward::Hop;
use origin::{Packet, Step};
use playout::Endpoint;
use refusals::Refusal;
use std::io::{Read, Write};

// What a record asks for, by its number.
#[derive(Clone, Copy)]
enum Kind {
    Origin = 1,
    Node = 2,
    Arrival = 3,
}

impl TryFrom<usize> for Kind {
    type Error = usize;

    ghost try_from_gives = { KindOf };

    fn try_from(number: usize) -> Result<Self, usize> {
        match number {
            1 => Ok(Kind::Origin),
            2 => Ok(Kind::Node),
            3 => Ok(Kind::Arrival),
            _ => Err(number),
        }
    }
}

impl Kind {
    fn number(self) -> u64
        ensures { result ≡ kind_number self }
    {
        self as u64
    }
}

// The frame made last, of which a voice frame has at most 138 octets: `length` says how many of the buffer are it. There is no heap to hold it.
#[derive(Clone, Copy)]
struct Frame {
    length: usize,
    buffer: [u8; 138],
}

impl Frame {
    fn octets(&self) -> &[u8]
        ensures { result.now ≡ frame_of self.now }
    {
        &self.buffer[..self.length.min(138)]
    }
}

// What is carried on from record to record.
#[derive(Clone, Copy)]
struct State {
    number: u64,
    sseq: u8,
    endpoint: Endpoint,
    frame: Frame,
}

// The numbers of a line, by what became of its record.
#[derive(Clone, Copy)]
enum Told {
    Refused([u64; 3]),
    Written([u64; 6]),
    Arrived([u64; 7]),
}

impl Told {
    fn numbers(&self) -> &[u64]
        ensures { (result.now ≡ told_of self.now) × (length result.now ≤ 7) }
    {
        match self {
            Told::Refused(numbers) => numbers,
            Told::Written(numbers) => numbers,
            Told::Arrived(numbers) => numbers,
        }
    }
}

#[derive(Clone, Copy)]
struct Outcome {
    state: State,
    told: Told,
}

// What a step leaves: how many octets of the input its record took, none where the walk stops, and where its line ends.
#[derive(Clone, Copy)]
struct Stepped {
    state: State,
    taken: Option<usize>,
    end: usize,
}

fn at_first() -> State
    ensures { carried_of result ≡ at_first }
{
    State {
        number: 0,
        sseq: 0,
        endpoint: endpoint::fresh(100),
        frame: Frame {
            length: 0,
            buffer: [0; 138],
        },
    }
}

// Answers where the next octet goes, as each function here does that puts text. A struct of buffer and place would be no plainer: `pass` keeps the
// place in its Flow, and lends the buffer anew for each step.
fn put_digits(places: usize, n: u64, out: &mut [u8], at: usize) -> usize
    requires { at + places ≤ length out.old }
    ensures { Put (digits places n) places at result out.old out.new }
{
    if places == 0 {
        return at;
    }
    if n < 10 {
        out[at] = b'0' + n as u8;
        return at + 1;
    }
    let end = put_digits(places - 1, n / 10, out, at);
    out[end] = b'0' + (n % 10) as u8;
    end + 1
}

fn put_number(n: u64, after: u8, out: &mut [u8], at: usize) -> usize
    requires { at + 21 ≤ length out.old }
    ensures { Put (number n after) 21 at result out.old out.new }
{
    let end = put_digits(20, n, out, at);
    out[end] = after;
    end + 1
}

fn after_number(left: usize) -> u8
    ensures { result ≡ after_number left }
{
    if left == 0 { b'\n' } else { b' ' }
}

fn put_line(numbers: &[u64], out: &mut [u8], at: usize) -> usize
    requires { at + 21 * length numbers.now ≤ length out.old }
    ensures { Put (line numbers.now) (21 * length numbers.now) at result out.old out.new }
{
    let mut end = at;
    for (i, number) in numbers.iter().enumerate() {
        let after = after_number(numbers.len() - 1 - i);
        end = put_number(*number, after, out, end);
    }
    end
}

fn put_stop(n: u64, out: &mut [u8], at: usize) -> usize
    requires { at + 26 ≤ length out.old }
    ensures { Put (stop_line n) 26 at result out.old out.new }
{
    let end = put_number(n, b' ', out, at);
    out[end..end + 5].copy_from_slice(b"stop\n");
    end + 5
}

// The octet at n, counted from 0; 0 past the end.
fn octet(rest: &[u8], n: usize) -> u8
    requires { n < 1024 }
    ensures { result ≡ octet (n + 1) rest.now }
{
    rest.get(n).copied().unwrap_or(0)
}

// The sum has 32 bits, and From makes no u32 of a usize.
fn four_octets(rest: &[u8], n: usize) -> u32
    requires { n < 1024 }
    ensures { result ≡ four n rest.now }
{
    (two_octets(rest, n) + 65536 * two_octets(rest, n + 2)) as u32
}

#[tactic(auto, unfolding(crate::specs::Walk::allowed))]
fn allowed(kind: Kind, n: usize, step: u8) -> bool
    ensures { result ≡ allowed (kind_number kind) n step }
{
    match kind {
        Kind::Origin => 10 <= n && n <= 1024 && step < 3,
        Kind::Node => n == 7,
        Kind::Arrival => n == 6,
    }
}

#[tactic(auto, unfolding(crate::specs::Walk::legal, crate::specs::Walk::allowed))]
fn legal(rest: &[u8]) -> bool
    ensures { result ≡ legal rest.now }
{
    let n = two_octets(rest, 1);
    match Kind::try_from(two_octets(rest, 3)) {
        Ok(kind) => allowed(kind, n, octet(rest, 4)) && 2 + n <= rest.len(),
        Err(_) => false,
    }
}

#[tactic(auto, using(refusals::proofs::RefusalLaws::judged), unfolding(crate::specs::Walk::told))]
fn refused(number: u64, kind: Kind, refusal: Refusal) -> Told
    ensures { (frame last : List ℕ) → told_of result ≡ told number (kind_number kind) (refusal_number refusal) frame last }
{
    Told::Refused([number, kind.number(), u64::from(refusal.number())])
}

// What follows a call that wrote a frame, or refused to: `buffer` is what it left. Here and below From makes no u64 of a usize.
fn made(
    state: State,
    kind: Kind,
    sseq: u8,
    sent: Result<usize, Refusal>,
    buffer: [u8; 138],
) -> Outcome
    ensures { (refusal : ℕ) (written : List ℕ) → sent_paper sent ≡ sent_answer refusal written → buffer ≡ sent_buffer refusal written state.frame.buffer → outcome_of result ≡ made (carried_of state) (kind_number kind) sseq refusal written }
{
    let number = state.number;
    let (frame, told) = match sent {
        Ok(length) => {
            let frame = Frame { length, buffer };
            let written = frame.octets();
            let told = Told::Written([
                number,
                kind.number(),
                0,
                written.len() as u64,
                u64::from(frame::stamp_of(written)),
                frame::field_c(written) as u64,
            ]);
            (frame, told)
        }
        Err(refusal) => (state.frame, refused(number, kind, refusal)),
    };
    Outcome {
        state: State {
            sseq,
            frame,
            ..state
        },
        told,
    }
}

// Each kind's function is handed the whole record, from its length on. An octet that the record has no more is 0.
fn by_origin(state: State, whole: &[u8]) -> Outcome
    ensures { outcome_of result ≡ by_origin (carried_of state) whole.now }
{
    let packet = Packet {
        step: Step::try_from(octet(whole, 4)).unwrap_or(Step::Stop),
        coding: Coding(octet(whole, 5)),
        noise: octet(whole, 6),
    };
    let hop = Hop {
        level: octet(whole, 7),
        from: 0,
        to: four_octets(whole, 9),
        address: 128,
    };
    let samples = whole.len().min(12);
    let mut sseq = state.sseq;
    let mut buffer = state.frame.buffer;
    let sent = origin::send(&mut sseq, packet, &whole[samples..], hop, &mut buffer);
    made(state, Kind::Origin, sseq, sent, buffer)
}

fn by_node(state: State, whole: &[u8]) -> Outcome
    ensures { outcome_of result ≡ by_node (carried_of state) whole.now }
{
    let hop = Hop {
        level: octet(whole, 4),
        from: 0,
        to: four_octets(whole, 6),
        address: 128,
    };
    let mut buffer = state.frame.buffer;
    let sent = node::forward(state.frame.octets(), hop, &mut buffer);
    made(state, Kind::Node, state.sseq, sent, buffer)
}

fn by_endpoint(state: State, whole: &[u8]) -> Outcome
    ensures { outcome_of result ≡ by_endpoint (carried_of state) whole.now }
{
    let number = state.number;
    let frame = state.frame.octets();
    let clock = u64::from(four_octets(whole, 5));
    let arrived = endpoint::arrive_value(state.endpoint, frame, clock);
    let told = match arrived.answer {
        Ok(arrival) => Told::Arrived([
            number,
            Kind::Arrival.number(),
            0,
            frame.len() as u64,
            u64::from(frame::stamp_of(frame)),
            arrival.due,
            u64::from(arrival.dropped),
        ]),
        Err(refusal) => refused(number, Kind::Arrival, refusal),
    };
    Outcome {
        state: State {
            endpoint: arrived.after,
            ..state
        },
        told,
    }
}

// `step` has judged that the kind is one of the three.
#[tactic(auto, unfolding(crate::specs::Walk::outcome))]
fn take_record(state: State, whole: &[u8]) -> Outcome
    ensures { outcome_of result ≡ outcome (carried_of state) whole.now }
{
    match Kind::try_from(two_octets(whole, 3)) {
        Ok(Kind::Origin) => by_origin(state, whole),
        Ok(Kind::Node) => by_node(state, whole),
        _ => by_endpoint(state, whole),
    }
}

// What the record does that rest, all that is left of the input, begins with.
fn step(state: State, rest: &[u8], out: &mut [u8], at: usize) -> Stepped
    requires { (state.number + 1 < 2 ^ 64) × (at + 147 ≤ length out.old) }
    ensures { Stepping (step (carried_of state) rest.now) at out.old out.new result }
{
    let number = state.number + 1;
    if !legal(rest) {
        let end = put_stop(number, out, at);
        return Stepped {
            state,
            taken: None,
            end,
        };
    }
    let taken = 2 + two_octets(rest, 1);
    let outcome = take_record(State { number, ..state }, &rest[..taken]);
    let end = put_line(outcome.told.numbers(), out, at);
    Stepped {
        state: outcome.state,
        taken: Some(taken),
        end,
    }
}

// Where the stream stands: octets from..have of the input's buffer are not taken yet, the first end of the output's not written.
#[derive(Clone, Copy)]
struct Flow {
    state: State,
    from: usize,
    have: usize,
    end: usize,
    ended: bool,
    going: bool,
}

fn ready(number: u64, left: usize, room: usize, ended: bool) -> bool
    ensures { result ≡ ready number left room ended }
{
    number < u64::MAX && 147 <= room && (1026 <= left || ended && 0 < left)
}

// Steps, as long as the next record is in the buffer and its line has room. A record says how many octets it has, so there is no range to go through.
fn pass(flow: Flow, input: &[u8], out: &mut [u8]) -> Flow
    requires { (flow.from ≤ flow.have) × (flow.have ≤ length input.now) × (flow.end ≤ length out.old) }
    ensures { Passed flow input.now out.old out.new result }
{
    let have = flow.have;
    let ended = flow.ended;
    let room = out.len();
    let mut state = flow.state;
    let mut from = flow.from;
    let mut end = flow.end;
    while ready(state.number, have - from, room - end, ended) {
        let stepped = step(state, &input[from..have], out, end);
        state = stepped.state;
        end = stepped.end;
        let Some(taken) = stepped.taken else {
            return Flow {
                state,
                from,
                end,
                going: false,
                ..flow
            };
        };
        from += taken;
    }
    Flow {
        state,
        from,
        end,
        going: !ended | (from < have),
        ..flow
    }
}

// Reads once, where the next record may not be all in the buffer. A read that fails counts as the end of the input.
fn fill<R: Read>(input: &mut R, flow: Flow, buffer: &mut [u8]) -> Flow
    requires { (flow.from ≤ flow.have) × (flow.have ≤ length buffer.old) }
    ensures { Filled flow buffer.old buffer.new result }
{
    let from = flow.from;
    let have = flow.have;
    if flow.ended | (1026 <= have - from) {
        return flow;
    }
    buffer.copy_within(from..have, 0);
    let left = have - from;
    let more = input.read(&mut buffer[left..]).unwrap_or(0);
    Flow {
        from: 0,
        have: left + more,
        ended: more == 0,
        ..flow
    }
}

// Writes what was collected, where the next line may have no room or none comes.
fn flush<W: Write>(output: &mut W, flow: Flow, out: &[u8]) -> Flow
    requires { flow.end ≤ length out.now }
    ensures { Flushed flow out.now result }
{
    let end = flow.end;
    if flow.going & (147 <= out.len() - end) {
        return flow;
    }
    let written = output.write_all(&out[..end]).is_ok();
    Flow {
        end: 0,
        going: flow.going && written,
        ..flow
    }
}

// The turns are counted, for a reader need not come to an end.
fn stream<R: Read, W: Write>(input: &mut R, output: &mut W, buffer: &mut [u8], out: &mut [u8]) {
    let mut flow = Flow {
        state: at_first(),
        from: 0,
        have: 0,
        end: 0,
        ended: false,
        going: true,
    };
    for _ in 0..u64::MAX {
        if !flow.going {
            break;
        }
        let filled = fill(input, flow, buffer);
        let passed = pass(filled, buffer, out);
        flow = flush(output, passed, out);
    }
}

// All that the program `walk` does: reads records, and writes a line for each.
pub fn run<R: Read, W: Write>(input: &mut R, output: &mut W) {
    let mut buffer = [0u8; 65536];
    let mut out = [0u8; 65536];
    stream(input, output, &mut buffer, &mut out);
}
