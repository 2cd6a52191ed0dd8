// The packet that the origin is given: what is wrong with it, and the frame that is made of it and sent on.
#![tactic(auto)]

ghost use Rattle.std.specs.Prelude.{◌≡◌, ℕ, leb, [], ◌∷◌, ◌++◌, ◌+◌, ◌*◌, ◌^◌, ◌<◌, ◌≤◌, min, length, drop};
ghost use Rattle.std.specs.List.{list_any};
ghost use Rattle.refusals.specs.Refusals.{refusal_of};
ghost use Rattle.coding.specs.Coding.{droppable_bits, frame_length};
ghost use Rattle.plain_blocks.specs.Figure7.{picked_blocks};
ghost use Rattle.plain_passes.specs.Passes.{drop_pass, passed, wait_between};
ghost use Rattle.plain_packet.specs.Packet.{plain_header, out_of_turn, samples_wrong, packet_order, send_order};

use coding::Coding;
use onward::Hop;
use origin::{Packet, Step};
use refusals::Refusal;

// START begins a burst, DATA and STOP are within one.
#[tactic(auto, unfolding(crate::specs::Packet::out_of_turn))]
fn out_of_turn(step: Step, sseq: u8) -> bool
    ensures { result ≡ out_of_turn step sseq }
{
    match step {
        Step::Start => sseq != 0,
        Step::Data | Step::Stop => sseq == 0,
    }
}

// One of them is the limit or more.
fn too_large(samples: &[u8], limit: usize) -> bool
    ensures { result ≡ list_any (λ x. leb limit x) samples.now }
{
    samples.iter().any(|x| limit <= usize::from(*x))
}

// `packet_order` shows that a sample has at most 8 bits.
#[tactic(auto, unfolding(crate::specs::Packet::samples_wrong))]
fn samples_wrong(samples: &[u8], s: usize) -> bool
    requires { s ≤ 8 }
    ensures { result ≡ samples_wrong samples.now s }
{
    samples.len() != 128 || too_large(samples, 1 << s)
}

#[tactic(auto, using(refusals::proofs::RefusalLaws::judged, coding::proofs::CodingLaws::s_le_8), unfolding(crate::specs::Packet::packet_order))]
fn packet_order(sseq: u8, packet: Packet, samples: &[u8]) -> Result<(), Refusal>
    ensures { refusal_of result ≡ packet_order sseq packet.step packet.coding.0 packet.noise samples.now }
{
    if 15 < sseq {
        return Err(Refusal::Record); // 14: SSEQ above 15
    }
    if out_of_turn(packet.step, sseq) {
        return Err(Refusal::OutOfTurn); // 13: START inside a burst, DATA or STOP outside
    }
    if packet.coding.reserved() {
        return Err(Refusal::CodingType); // 6: coding type reserved or above 31
    }
    if 15 < packet.noise {
        return Err(Refusal::Bits); // 12: noise above 15
    }
    if samples_wrong(samples, usize::from(packet.coding.sample_bits())) {
        return Err(Refusal::Samples); // 11: not 128 samples, or one is 2^S or more
    }
    Ok(())
}

// How long the frame is that the origin sends: it drops as many blocks as the level says, but at most D.
fn sent_length(coding: Coding, level: u8) -> usize
    ensures { result ≡ frame_length coding.0 (min (droppable_bits coding.0) level) }
{
    let dropped = coding.droppable_bits().min(level);
    coding.frame_length(usize::from(dropped))
}

#[tactic(auto, using(refusals::proofs::RefusalLaws::judged), unfolding(crate::specs::Packet::send_order))]
pub fn send_order(
    sseq: u8,
    packet: Packet,
    samples: &[u8],
    hop: Hop,
    room: usize,
) -> Result<(), Refusal>
    ensures { refusal_of result ≡ send_order sseq packet.step packet.coding.0 packet.noise samples.now hop.level hop.address room }
{
    packet_order(sseq, packet, samples)?;
    if 3 < hop.level {
        return Err(Refusal::Level); // 10: level above 3
    }
    if refusals::address_bad(usize::from(hop.address)) {
        return Err(Refusal::OutgoingAddress); // 15: outgoing address outside range
    }
    if room < sent_length(packet.coding, hop.level) {
        return Err(Refusal::Room); // 16: output buffer shorter than the frame to be written
    }
    Ok(())
}

// Octets 1 to 8 as they are made. Here and below `plain::send` has refused what the requires leave out.
#[tactic(auto, using(coding::proofs::CodingLaws::d_le_3), unfolding(crate::specs::Packet::plain_header))]
pub fn header(coding: u8, more: u8, sequence: u8, noise: u8) -> [u8; 8]
    requires { (coding < 32) × (more ≤ 1) × (sequence ≤ 15) × (noise ≤ 15) }
    ensures { result ≡ plain_header coding more sequence noise }
{
    let d = Coding(coding).droppable_bits();
    [
        0, // the address is still to be written
        1, // and bit 1 of octet 2 is 1
        239, // UIH: voice
        68, // protocol discriminator
        d * 16 + d, // block dropping indicator: M and C are D
        0, // time stamp
        more * 128 + coding, // more bit, coding type
        sequence * 16 + noise, // sequence number, noise
    ]
}

// The frame with all its blocks, in an array that has room for the longest; the rest of the array stays as it came.
pub fn make(head: [u8; 8], s: usize, samples: &[u8], frame: &mut [u8])
    requires { (s ≤ 8) × (length frame.old ≡ 138) }
    ensures { frame.new ≡ head ++ picked_blocks s samples.now s ++ drop (8 + 16 * s) frame.old }
{
    frame[..8].copy_from_slice(&head);
    plain_blocks::pick_blocks(samples, s, &mut frame[8..]);
}

// The frame is made with C = D and stamp 0, and then goes through the node's passes.
pub fn write(head: [u8; 8], s: usize, samples: &[u8], hop: Hop, out: &mut [u8]) -> usize
    requires { (s ≤ 8) × (hop.address < 8192) × (length (drop_pass hop.level (head ++ picked_blocks s samples.now s ++ 0 ∷ 0 ∷ [])) ≤ length out.old) }
    ensures { (result ≡ length (passed hop.level (wait_between hop.from hop.to) hop.address (head ++ picked_blocks s samples.now s ++ 0 ∷ 0 ∷ []))) × (out.new ≡ passed hop.level (wait_between hop.from hop.to) hop.address (head ++ picked_blocks s samples.now s ++ 0 ∷ 0 ∷ []) ++ drop result out.old) }
{
    let mut made = [0u8; 138];
    make(head, s, samples, &mut made);
    let frame = &made[..8 + 16 * s + 2];
    let wait = plain_passes::wait_between(hop.from, hop.to);
    plain_passes::send_on(
        frame,
        usize::from(hop.level),
        wait,
        usize::from(hop.address),
        out,
    )
}
