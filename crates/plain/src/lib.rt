// The plain engine: an origin, a node and a voice reader that do what the quick ones do, written to be read.
#![tactic(auto)]

ghost use Rattle.std.specs.Prelude.{◌≡◌, length};
ghost use Rattle.refusals.specs.Refusals.{refusal_of};
ghost use Rattle.onward.specs.Sent.{sent_paper};
ghost use Rattle.endpoint.specs.Read.{heard_paper};
ghost use Rattle.plain_passes.specs.Passes.{wait_between};
ghost use Rattle.plain.specs.Forward.{forward_order, plain_forward_answer, plain_forward_buffer};
ghost use Rattle.plain.specs.Read.{plain_read};
ghost use Rattle.plain.specs.Send.{plain_send_answer, plain_send_buffer, plain_send_sseq};

use endpoint::Words;
use onward::Hop;
use origin::Packet;
use plain_packet::send_order;
use plain_passes::{send_on, wait_between};
use refusals::Refusal;

#[tactic(auto, using(refusals::proofs::RefusalLaws::judged), unfolding(crate::specs::Forward::forward_order))]
fn forward_order(frame: &[u8], hop: Hop, room: usize) -> Result<(), Refusal>
    ensures { refusal_of result ≡ forward_order hop.level hop.address frame.now room }
{
    if 3 < hop.level {
        return Err(Refusal::Level); // 10: level above 3
    }
    if refusals::address_bad(usize::from(hop.address)) {
        return Err(Refusal::OutgoingAddress); // 15: outgoing address outside range
    }
    plain_order::taken_order(frame)?;
    if room < plain_passes::length_after(frame, usize::from(hop.level)) {
        return Err(Refusal::Room); // 16: output buffer shorter than the frame to be written
    }
    Ok(())
}

// The node, for voice and signalling alike.
#[tactic(auto, using(refusals::proofs::RefusalLaws::judged), unfolding(crate::specs::Forward::plain_forward_answer, crate::specs::Forward::plain_forward_buffer, onward::specs::Sent::sent_answer, onward::specs::Sent::sent_buffer, onward::specs::Sent::sent_paper))]
pub fn forward(frame: &[u8], hop: Hop, out: &mut [u8]) -> Result<usize, Refusal>
    ensures answer { sent_paper result ≡ plain_forward_answer hop.level (wait_between hop.from hop.to) hop.address frame.now out.old }
    ensures buffer { out.new ≡ plain_forward_buffer hop.level (wait_between hop.from hop.to) hop.address frame.now out.old }
{
    forward_order(frame, hop, out.len())?;
    let level = usize::from(hop.level);
    let wait = wait_between(hop.from, hop.to);
    Ok(send_on(frame, level, wait, usize::from(hop.address), out))
}

// The voice reader, with no record and no clock.
#[tactic(auto, using(refusals::proofs::RefusalLaws::judged), unfolding(crate::specs::Read::plain_read, endpoint::specs::Read::heard_paper))]
pub fn read(frame: &[u8]) -> Result<Words, Refusal>
    ensures { heard_paper result ≡ plain_read frame.now }
{
    plain_order::read_order(frame)?;
    let s = frame::coding_of(frame).sample_bits();
    let dropped = frame::field_m(frame).saturating_sub(frame::field_c(frame));
    let width = usize::from(s).saturating_sub(dropped);
    Ok(Words {
        s,
        dropped: dropped as u8,
        width: width as u8,
        samples: plain_blocks::read_words(&frame[8..], width),
    })
}

// The origin.
#[tactic(auto, using(refusals::proofs::RefusalLaws::judged), unfolding(crate::specs::Send::plain_send_answer, crate::specs::Send::plain_send_buffer, crate::specs::Send::plain_send_sseq, crate::specs::Send::plain_sent, plain_packet::specs::Packet::plain_made, onward::specs::Sent::sent_answer, onward::specs::Sent::sent_buffer, onward::specs::Sent::sent_paper))]
pub fn send(
    sseq: &mut u8,
    packet: Packet,
    samples: &[u8],
    hop: Hop,
    out: &mut [u8],
) -> Result<usize, Refusal>
    ensures answer { sent_paper result ≡ plain_send_answer sseq.old packet.step packet.coding.0 packet.noise samples.now hop.level (wait_between hop.from hop.to) hop.address out.old }
    ensures buffer { out.new ≡ plain_send_buffer sseq.old packet.step packet.coding.0 packet.noise samples.now hop.level (wait_between hop.from hop.to) hop.address out.old }
    ensures sseq { sseq.new ≡ plain_send_sseq sseq.old packet.step packet.coding.0 packet.noise samples.now hop.level hop.address (length out.old) }
{
    let before = *sseq;
    send_order(before, packet, samples, hop, out.len())?;
    let step = packet.step;
    let coding = packet.coding;
    let sequence = step.sequence_sent(before);
    let head = plain_packet::header(coding.0, step.more_sent(), sequence, packet.noise);
    let s = usize::from(coding.sample_bits());
    let length = plain_packet::write(head, s, samples, hop, out);
    *sseq = step.sseq_set(before);
    Ok(length)
}
