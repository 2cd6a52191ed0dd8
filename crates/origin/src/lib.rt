// The origin: makes voice frames of 128 samples, burst by burst, and signalling frames.
#![tactic(auto)]

ghost use Rattle.std.specs.Prelude.{◌≡◌, [], ◌∷◌, ◌++◌, ℕ, ◌+◌, ◌*◌, ◌/◌, ◌%◌, ◌^◌, ◌<◌, ◌≤◌, min, length, drop};
ghost use Rattle.coding.specs.Coding.{droppable_bits};
ghost use Rattle.refusals.specs.Refusals.{refusal_of};
ghost use Rattle.onward.specs.Onward.{wait_of};
ghost use Rattle.onward.specs.Sent.{sent_paper};
ghost use Rattle.origin.specs.Burst.{refusal14, refusal13, sequence_sent, more_sent, sseq_set, step_numbered, StepOf};
ghost use Rattle.origin.specs.Send.{made_head, send_written, send_refusal, send_answer, send_buffer, send_sseq};
ghost use Rattle.origin.specs.Signal.{signal_written, signal_refusal, signal_answer, signal_buffer};

use coding::Coding;
use onward::Hop;
use refusals::{Refusal, refuse};

// A burst is one START, any number of DATA, and a STOP.
#[derive(Clone, Copy, Debug, PartialEq, Eq)]
pub enum Step {
    Start,
    Data,
    Stop,
}

// A step by its number, 2 and above STOP. It stays beside the conversion below, since it cannot fail.
pub fn step_numbered(n: usize) -> Step
    ensures { result ≡ step_numbered n }
{
    match n {
        0 => Step::Start,
        1 => Step::Data,
        _ => Step::Stop,
    }
}

impl TryFrom<u8> for Step {
    type Error = Refusal;

    ghost try_from_gives = { StepOf };

    fn try_from(number: u8) -> Result<Self, Refusal> {
        match number {
            0 => Ok(Step::Start),
            1 => Ok(Step::Data),
            2 => Ok(Step::Stop),
            _ => Err(Refusal::OutOfTurn),
        }
    }
}

impl Step {
    fn refusal_13(self, sseq: u8) -> Result<(), Refusal>
        ensures { refusal_of result ≡ refusal13 self sseq }
    {
        match self {
            Step::Start => refuse(sseq != 0, Refusal::OutOfTurn),
            Step::Data | Step::Stop => refuse(sseq == 0, Refusal::OutOfTurn),
        }
    }

    pub fn sequence_sent(self, sseq: u8) -> u8
        ensures { result ≡ sequence_sent self sseq }
    {
        match self {
            Step::Start => 0,
            Step::Data | Step::Stop => sseq,
        }
    }

    pub fn more_sent(self) -> u8
        ensures { result ≡ more_sent self }
    {
        match self {
            Step::Start | Step::Data => 1,
            Step::Stop => 0,
        }
    }

    pub fn sseq_set(self, sseq: u8) -> u8
        ensures { result ≡ sseq_set self sseq }
    {
        match self {
            Step::Start => 1,
            Step::Data => octets::next_number(sseq),
            Step::Stop => 0,
        }
    }
}

// What the origin is told of a packet beside its samples.
#[derive(Clone, Copy)]
pub struct Packet {
    pub step: Step,
    pub coding: Coding,
    pub noise: u8,
}

fn refusal_14(sseq: u8) -> Result<(), Refusal>
    ensures { refusal_of result ≡ refusal14 sseq }
{
    refuse(15 < sseq, Refusal::Record)
}

// Octets 1 to 8 of a frame just made, its stamp 0. A writer sets reserved, C/R and poll bits to 0.
fn head(address: usize, control: u8, fifth: u8, seventh: u8, eighth: u8) -> [u8; 8]
    requires { address < 8192 }
    ensures { result ≡ address / 128 * 4 ∷ (address % 128 * 2 + 1) ∷ control ∷ 68 ∷ fifth ∷ 0 ∷ seventh ∷ eighth ∷ [] }
{
    [
        (address / 128 * 4) as u8,
        (address % 128 * 2 + 1) as u8,
        control,
        68,
        fifth,
        0,
        seventh,
        eighth,
    ]
}

// M and C begin as D.
fn made_head(coding: u8, more: u8, sequence: u8, noise: u8, address: usize) -> [u8; 8]
    requires { (coding < 32) × (more ≤ 1) × (sequence ≤ 15) × (noise ≤ 15) × (address < 8192) }
    ensures { result ≡ made_head address coding more sequence noise }
{
    let d = Coding(coding).droppable_bits();
    head(
        address,
        239,
        d * 16 + d,
        more * 128 + coding,
        sequence * 16 + noise,
    )
}

// What the origin drops is the lesser of D and the level.
fn dropped_of(coding: Coding, level: usize) -> usize
    ensures { result ≡ min (droppable_bits coding.0) level }
{
    usize::from(coding.droppable_bits()).min(level)
}

#[tactic(auto, using(refusals::proofs::RefusalLaws::judged), unfolding(crate::specs::Send::send_refusal))]
fn send_refusal(
    sseq: u8,
    packet: Packet,
    samples: &[u8],
    level: usize,
    address: usize,
    room: usize,
) -> Result<(), Refusal>
    ensures { (wait : ℕ) → refusal_of result ≡ send_refusal sseq packet.step packet.coding.0 packet.noise samples.now level wait address room }
{
    let coding = packet.coding;
    refusal_14(sseq)?;
    packet.step.refusal_13(sseq)?;
    coding.refusal_6()?;
    refusals::refusal_12(packet.noise, 0)?;
    blocks::refusal_11(samples, usize::from(coding.sample_bits()))?;
    refusals::refusal_10(level)?;
    refusals::refusal_15(address)?;
    refusals::refusal_16(room, coding.frame_length(dropped_of(coding, level)))
}

// The frame sent, into a buffer with room for it: only the blocks that are kept are packed.
fn write_voice(
    sseq: u8,
    packet: Packet,
    samples: &[u8],
    level: usize,
    wait: usize,
    address: usize,
    out: &mut [u8],
) -> usize
    requires { (send_refusal sseq packet.step packet.coding.0 packet.noise samples.now level wait address (length out.old) ≡ 0) × (wait < 2 ^ 32) }
    ensures { (result ≡ length (send_written sseq packet.step packet.coding.0 packet.noise samples.now level wait address)) × (out.new ≡ send_written sseq packet.step packet.coding.0 packet.noise samples.now level wait address ++ drop result out.old) }
{
    let step = packet.step;
    let s = usize::from(packet.coding.sample_bits());
    let kept = s.saturating_sub(dropped_of(packet.coding, level));
    let made = made_head(
        packet.coding.0,
        step.more_sent(),
        step.sequence_sent(sseq),
        packet.noise,
        address,
    );
    onward::put_head(&made, level, wait, address, out);
    blocks::pack(out, samples, s, kept);
    fcs::seal(out, 8, 8 + 16 * kept);
    8 + 16 * kept + 2
}

// A refused call leaves SSEQ and the buffer as they came; a taken one leaves the rest of the buffer so.
#[tactic(auto, using(refusals::proofs::RefusalLaws::judged), unfolding(crate::specs::Send::send_answer, crate::specs::Send::send_buffer, crate::specs::Send::send_sseq, onward::specs::Sent::sent_answer, onward::specs::Sent::sent_buffer, onward::specs::Sent::sent_paper))]
pub fn send(
    sseq: &mut u8,
    packet: Packet,
    samples: &[u8],
    hop: Hop,
    out: &mut [u8],
) -> Result<usize, Refusal>
    ensures answer { sent_paper result ≡ send_answer sseq.old packet.step packet.coding.0 packet.noise samples.now hop.level (wait_of hop.from hop.to) hop.address out.old }
    ensures buffer { out.new ≡ send_buffer sseq.old packet.step packet.coding.0 packet.noise samples.now hop.level (wait_of hop.from hop.to) hop.address out.old }
    ensures sseq { sseq.new ≡ send_sseq sseq.old packet.step packet.coding.0 packet.noise samples.now hop.level (wait_of hop.from hop.to) hop.address (length out.old) }
{
    let before = *sseq;
    let level = usize::from(hop.level);
    let address = usize::from(hop.address);
    send_refusal(before, packet, samples, level, address, out.len())?;
    let length = write_voice(before, packet, samples, level, hop.wait(), address, out);
    *sseq = packet.step.sseq_set(before);
    Ok(length)
}

#[tactic(auto, using(refusals::proofs::RefusalLaws::judged, crate::proofs::SignalLaws::signal_length), unfolding(crate::specs::Signal::signal_refusal))]
fn signal_refusal(bits: u8, na: u8, address: usize, room: usize) -> Result<(), Refusal>
    ensures { (wait : ℕ) → refusal_of result ≡ signal_refusal bits na wait address room }
{
    refusals::refusal_12(bits, na)?;
    refusals::refusal_15(address)?;
    refusals::refusal_16(room, 10)
}

// The signalling frame, into a buffer with room for it: it has no block to drop.
fn write_signal(bits: u8, na: u8, wait: usize, address: usize, out: &mut [u8]) -> usize
    requires { (signal_refusal bits na wait address (length out.old) ≡ 0) × (wait < 2 ^ 32) }
    ensures { (result ≡ length (signal_written bits na wait address)) × (out.new ≡ signal_written bits na wait address ++ drop result out.old) }
{
    let made = head(address, 3, 0, na, bits);
    onward::put_head(&made, 0, wait, address, out);
    fcs::seal(out, 8, 8);
    10
}

// A refused call leaves the buffer as it came; a taken one leaves the rest of it so. There is nothing to drop, so the level does not matter.
#[tactic(auto, using(refusals::proofs::RefusalLaws::judged), unfolding(crate::specs::Signal::signal_answer, crate::specs::Signal::signal_buffer, onward::specs::Sent::sent_answer, onward::specs::Sent::sent_buffer, onward::specs::Sent::sent_paper))]
pub fn signal(bits: u8, na: u8, hop: Hop, out: &mut [u8]) -> Result<usize, Refusal>
    ensures answer { sent_paper result ≡ signal_answer bits na (wait_of hop.from hop.to) hop.address out.old }
    ensures buffer { out.new ≡ signal_buffer bits na (wait_of hop.from hop.to) hop.address out.old }
{
    let address = usize::from(hop.address);
    signal_refusal(bits, na, address, out.len())?;
    Ok(write_signal(bits, na, hop.wait(), address, out))
}
