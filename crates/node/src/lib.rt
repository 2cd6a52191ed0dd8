// A node: takes a frame, drops blocks, stamps, addresses and seals it, and sends it on.
#![tactic(auto)]

ghost use Rattle.std.specs.Prelude.{◌≡◌, ◌++◌, ℕ, drop};
ghost use Rattle.refusals.specs.Refusals.{refusal_of};
ghost use Rattle.onward.specs.Onward.{wait_of, onward};
ghost use Rattle.onward.specs.Sent.{sent_paper};
ghost use Rattle.node.specs.Node.{forward_refusal, forward_answer, forward_buffer, Sendable};

use onward::Hop;
use refusals::Refusal;

#[tactic(auto, using(refusals::proofs::RefusalLaws::judged), unfolding(crate::specs::Node::forward_refusal))]
fn forward_refusal(frame: &[u8], level: usize, address: usize, room: usize) -> Result<(), Refusal>
    ensures { (wait : ℕ) → refusal_of result ≡ forward_refusal level wait address frame.now room }
{
    refusals::refusal_10(level)?;
    refusals::refusal_15(address)?;
    frame::taken_refusal(frame)?;
    refusals::refusal_16(room, onward::onward_length(frame, level))
}

// The frame sent on, of n octets, into a buffer with room for it: `forward` has refused all else. The check is worked out before the head is stored: to read
// back in one piece what was stored octet by octet makes a machine wait.
fn send_on(frame: &[u8], n: usize, level: usize, wait: usize, address: usize, out: &mut [u8])
    requires { Sendable n level wait address frame.now out.old }
    ensures { out.new ≡ onward level wait address frame.now ++ drop n out.old }
{
    let made = onward::head(frame, level, wait, address);
    let check = fcs::head(made);
    octets::copy(&made, out);
    octets::copy(&frame[8..n - 2], &mut out[8..]);
    fcs::put(out, check, n - 2);
}

// Voice and signalling alike; answers the length of the frame sent on. Refused, the buffer is as it came; taken, so is what is left of it.
#[tactic(auto, using(refusals::proofs::RefusalLaws::judged), unfolding(crate::specs::Node::forward_answer, crate::specs::Node::forward_buffer, onward::specs::Sent::sent_answer, onward::specs::Sent::sent_buffer, onward::specs::Sent::sent_paper))]
pub fn forward(frame: &[u8], hop: Hop, out: &mut [u8]) -> Result<usize, Refusal>
    ensures answer { sent_paper result ≡ forward_answer hop.level (wait_of hop.from hop.to) hop.address frame.now out.old }
    ensures buffer { out.new ≡ forward_buffer hop.level (wait_of hop.from hop.to) hop.address frame.now out.old }
{
    let level = usize::from(hop.level);
    let address = usize::from(hop.address);
    forward_refusal(frame, level, address, out.len())?;
    let length = onward::onward_length(frame, level);
    send_on(frame, length, level, hop.wait(), address, out);
    Ok(length)
}
