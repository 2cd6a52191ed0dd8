// The calls of origin and node for a host in C or Rust, on numbers and on slices that are lent.
#![tactic(auto)]

ghost use Rattle.std.specs.Prelude.{◌≡◌, ◌≤◌, length};
ghost use Rattle.refusals.specs.Refusals.{◌or_else◌, if_taken};
ghost use Rattle.frame.specs.Calls.{link_answer, taken_answer};
ghost use Rattle.onward.specs.Sent.{sent_paper};
ghost use Rattle.onward.specs.Onward.{wait_of};
ghost use Rattle.node.specs.Node.{forward_answer, forward_buffer};
ghost use Rattle.origin.specs.Signal.{signal_answer, signal_buffer};
ghost use Rattle.card.specs.Card.{put, short, written};
ghost use Rattle.card_frames.specs.Frames.{sent_numbers, link_numbers, taken_numbers, step_answer, step_buffer, step_sseq};

use card::{flag, put};
use coding::Coding;
use onward::Hop;
use origin::{Packet, Step};
use refusals::{Refusal, number_of, refusal_16};

#[tactic(auto, using(refusals::proofs::RefusalLaws::judged), unfolding(crate::specs::Frames::step_answer, crate::specs::Frames::step_buffer, crate::specs::Frames::step_sseq, onward::specs::Sent::sent_paper))]
fn step_send(
    sseq: &mut u8,
    step: u8,
    coding: u8,
    noise: u8,
    samples: &[u8],
    hop: Hop,
    out: &mut [u8],
) -> Result<usize, Refusal>
    ensures answer { sent_paper result ≡ step_answer sseq.old step coding noise samples.now hop.level (wait_of hop.from hop.to) hop.address out.old }
    ensures buffer { out.new ≡ step_buffer sseq.old step coding noise samples.now hop.level (wait_of hop.from hop.to) hop.address out.old }
    ensures sseq { sseq.new ≡ step_sseq sseq.old step coding noise samples.now hop.level (wait_of hop.from hop.to) hop.address (length out.old) }
{
    let step = Step::try_from(step)?;
    let packet = Packet {
        step,
        coding: Coding(coding),
        noise,
    };
    origin::send(sseq, packet, samples, hop, out)
}

// The answer of a call that writes a frame. Each caller has refused a slice that has no room for it.
#[tactic(auto, using(refusals::proofs::RefusalLaws::judged), unfolding(onward::specs::Sent::sent_paper))]
fn put_sent(sent: Result<usize, Refusal>, answer: &mut [u64]) -> u8
    requires { 1 ≤ length answer.old }
    ensures number { result ≡ (sent_paper sent).refusal }
    ensures answer { answer.new ≡ put (sent_numbers (sent_paper sent)) answer.old }
{
    let length = sent.unwrap_or(0);
    put(&[length as u64], answer);
    number_of(&sent)
}

// The origin: a voice frame.
#[tactic(auto, using(refusals::proofs::RefusalLaws::judged), unfolding(card::specs::Card::written))]
#[unsafe(no_mangle)]
pub extern "C" fn pelgrant_send(
    sseq: &mut u8,
    step: u8,
    coding: u8,
    noise: u8,
    samples: &[u8],
    level: u8,
    from: u32,
    to: u32,
    address: u16,
    out: &mut [u8],
    answer: &mut [u64],
) -> u8
    ensures number { result ≡ short 1 answer.old or_else (step_answer sseq.old step coding noise samples.now level (wait_of from to) address out.old).refusal }
    ensures answer { answer.new ≡ written (short 1 answer.old) (sent_numbers (step_answer sseq.old step coding noise samples.now level (wait_of from to) address out.old)) answer.old }
    ensures out { out.new ≡ if_taken (short 1 answer.old) (step_buffer sseq.old step coding noise samples.now level (wait_of from to) address out.old) out.old }
    ensures sseq { sseq.new ≡ if_taken (short 1 answer.old) (step_sseq sseq.old step coding noise samples.now level (wait_of from to) address (length out.old)) sseq.old }
{
    if let Err(flat) = refusal_16(answer.len(), 1) {
        return flat.number();
    }
    let hop = Hop {
        level,
        from,
        to,
        address,
    };
    let sent = step_send(sseq, step, coding, noise, samples, hop, out);
    put_sent(sent, answer)
}

// The origin: a signalling frame.
#[tactic(auto, using(refusals::proofs::RefusalLaws::judged), unfolding(card::specs::Card::written))]
#[unsafe(no_mangle)]
pub extern "C" fn pelgrant_signal_write(
    bits: u8,
    na: u8,
    from: u32,
    to: u32,
    address: u16,
    out: &mut [u8],
    answer: &mut [u64],
) -> u8
    ensures number { result ≡ short 1 answer.old or_else (signal_answer bits na (wait_of from to) address out.old).refusal }
    ensures answer { answer.new ≡ written (short 1 answer.old) (sent_numbers (signal_answer bits na (wait_of from to) address out.old)) answer.old }
    ensures out { out.new ≡ if_taken (short 1 answer.old) (signal_buffer bits na (wait_of from to) address out.old) out.old }
{
    if let Err(flat) = refusal_16(answer.len(), 1) {
        return flat.number();
    }
    let hop = Hop {
        level: 0,
        from,
        to,
        address,
    };
    let sent = origin::signal(bits, na, hop, out);
    put_sent(sent, answer)
}

// The node: a frame sent on.
#[tactic(auto, using(refusals::proofs::RefusalLaws::judged), unfolding(card::specs::Card::written))]
#[unsafe(no_mangle)]
pub extern "C" fn pelgrant_forward(
    frame: &[u8],
    level: u8,
    from: u32,
    to: u32,
    address: u16,
    out: &mut [u8],
    answer: &mut [u64],
) -> u8
    ensures number { result ≡ short 1 answer.old or_else (forward_answer level (wait_of from to) address frame.now out.old).refusal }
    ensures answer { answer.new ≡ written (short 1 answer.old) (sent_numbers (forward_answer level (wait_of from to) address frame.now out.old)) answer.old }
    ensures out { out.new ≡ if_taken (short 1 answer.old) (forward_buffer level (wait_of from to) address frame.now out.old) out.old }
{
    if let Err(flat) = refusal_16(answer.len(), 1) {
        return flat.number();
    }
    let hop = Hop {
        level,
        from,
        to,
        address,
    };
    let sent = node::forward(frame, hop, out);
    put_sent(sent, answer)
}

// What a frame's link layer says of it. Each export puts its own numbers, or as many zeros: a function for all, over arrays of any length,
// leaves the clause on the answer without a proof.
#[tactic(auto, using(refusals::proofs::RefusalLaws::judged), unfolding(card::specs::Card::written, frame::specs::Calls::link_paper))]
#[unsafe(no_mangle)]
pub extern "C" fn pelgrant_link(frame: &[u8], answer: &mut [u64]) -> u8
    ensures number { result ≡ short 2 answer.old or_else (link_answer frame.now).refusal }
    ensures answer { answer.new ≡ written (short 2 answer.old) (link_numbers (link_answer frame.now)) answer.old }
{
    if let Err(flat) = refusal_16(answer.len(), 2) {
        return flat.number();
    }
    match frame::link(frame) {
        Ok(a) => {
            put(&[flag(a.voice), u64::from(a.address)], answer);
            0
        }
        Err(refusal) => {
            put(&[0, 0], answer);
            refusal.number()
        }
    }
}

// What a node finds in a frame.
#[tactic(auto, using(refusals::proofs::RefusalLaws::judged), unfolding(card::specs::Card::written, frame::specs::Calls::taken_paper))]
#[unsafe(no_mangle)]
pub extern "C" fn pelgrant_taken(frame: &[u8], answer: &mut [u64]) -> u8
    ensures number { result ≡ short 3 answer.old or_else (taken_answer frame.now).refusal }
    ensures answer { answer.new ≡ written (short 3 answer.old) (taken_numbers (taken_answer frame.now)) answer.old }
{
    if let Err(flat) = refusal_16(answer.len(), 3) {
        return flat.number();
    }
    match frame::taken(frame) {
        Ok(a) => {
            put(&[flag(a.voice), a.length as u64, u64::from(a.c)], answer);
            0
        }
        Err(refusal) => {
            put(&[0, 0, 0], answer);
            refusal.number()
        }
    }
}
