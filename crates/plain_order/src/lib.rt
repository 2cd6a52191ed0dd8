// What is wrong with a frame: one question after another, in the order and the words of document 01.
#![tactic(auto)]

ghost use Rattle.std.specs.Prelude.{◌≡◌, ◌≤◌, length};
ghost use Rattle.refusals.specs.Refusals.{refusal_of};
ghost use Rattle.plain_order.specs.Order.{length_wrong, address_wrong, control_wrong, command_or_poll, check_wrong, protocol_wrong, coding_wrong, dropping_wrong, size_wrong, stamp_wrong, link_order, layout_order, taken_order, read_order};

use frame::{coding_of, field_c, field_m, is_voice};
use octets::{at, two_octets};
use refusals::Refusal;

#[tactic(auto, unfolding(crate::specs::Order::length_wrong))]
fn length_wrong(frame: &[u8]) -> bool
    ensures { result ≡ length_wrong frame.now }
{
    frame.len() < 10 || 490 < frame.len()
}

#[tactic(auto, unfolding(crate::specs::Order::address_wrong))]
fn address_wrong(frame: &[u8]) -> bool
    ensures { result ≡ address_wrong frame.now }
{
    let outside = refusals::address_bad(frame::address_of(frame));
    at(frame, 0) % 2 != 0 || at(frame, 1) % 2 != 1 || outside
}

#[tactic(auto, unfolding(crate::specs::Order::control_wrong))]
fn control_wrong(frame: &[u8]) -> bool
    ensures { result ≡ control_wrong frame.now }
{
    !matches!(frame::control_of(frame), 239 | 3)
}

#[tactic(auto, unfolding(crate::specs::Order::command_or_poll))]
fn command_or_poll(frame: &[u8]) -> bool
    ensures { result ≡ command_or_poll frame.now }
{
    frame::command_bit(frame) != 0 || frame::poll_bit(frame) != 0
}

// The check of a voice frame covers its octets 1 to 8, of signalling all before it. `link_order` has judged the length.
#[tactic(auto, unfolding(crate::specs::Order::check_wrong))]
fn check_wrong(frame: &[u8]) -> bool
    requires { (10 ≤ length frame.now) × (length frame.now ≤ 490) }
    ensures { result ≡ check_wrong frame.now }
{
    let n = frame.len();
    let covered = if is_voice(frame) { 8 } else { n - 2 };
    let check = plain_check::check(&frame[..covered]);
    two_octets(frame, n - 1) != two_octets(&check, 1)
}

#[tactic(auto, unfolding(crate::specs::Order::protocol_wrong))]
fn protocol_wrong(frame: &[u8]) -> bool
    ensures { result ≡ protocol_wrong frame.now }
{
    at(frame, 3) != 68
}

#[tactic(auto, unfolding(crate::specs::Order::coding_wrong))]
fn coding_wrong(frame: &[u8]) -> bool
    ensures { result ≡ coding_wrong frame.now }
{
    is_voice(frame) && coding_of(frame).reserved()
}

#[tactic(auto, unfolding(crate::specs::Order::dropping_wrong))]
fn dropping_wrong(frame: &[u8]) -> bool
    ensures { result ≡ dropping_wrong frame.now }
{
    let m = field_m(frame);
    let d = usize::from(coding_of(frame).droppable_bits());
    let legal = if is_voice(frame) { d } else { 0 };
    m != legal || m < field_c(frame)
}

#[tactic(auto, unfolding(crate::specs::Order::size_wrong))]
fn size_wrong(frame: &[u8]) -> bool
    ensures { result ≡ size_wrong frame.now }
{
    let dropped = field_m(frame).saturating_sub(field_c(frame));
    let voice = coding_of(frame).frame_length(dropped);
    frame.len() != if is_voice(frame) { voice } else { 10 }
}

#[tactic(auto, unfolding(crate::specs::Order::stamp_wrong))]
fn stamp_wrong(frame: &[u8]) -> bool
    ensures { result ≡ stamp_wrong frame.now }
{
    200 < at(frame, 5)
}

// A frame too long is refused before anything of it is looked at.
#[tactic(auto, using(refusals::proofs::RefusalLaws::judged), unfolding(crate::specs::Order::link_order))]
fn link_order(frame: &[u8]) -> Result<(), Refusal>
    ensures { refusal_of result ≡ link_order frame.now }
{
    if length_wrong(frame) {
        return Err(Refusal::FrameSize); // 1: frame under 10 or over 490 octets
    }
    if address_wrong(frame) {
        return Err(Refusal::Address); // 2: bit 1 of octet 1 not 0, of octet 2 not 1, or address outside range
    }
    if control_wrong(frame) {
        return Err(Refusal::Control); // 3: octet 3, poll bit aside, neither 239 nor 3
    }
    if command_or_poll(frame) {
        return Err(Refusal::CommandOrPoll); // 24: C/R or poll bit set
    }
    if check_wrong(frame) {
        return Err(Refusal::CheckSequence); // 4: check sequence wrong
    }
    if protocol_wrong(frame) {
        return Err(Refusal::Protocol); // 5: octet 4 not 68
    }
    Ok(())
}

#[tactic(auto, using(refusals::proofs::RefusalLaws::judged), unfolding(crate::specs::Order::layout_order))]
fn layout_order(frame: &[u8]) -> Result<(), Refusal>
    ensures { refusal_of result ≡ layout_order frame.now }
{
    if dropping_wrong(frame) {
        return Err(Refusal::Dropping); // 7: M, C not legal (signalling: not both 0)
    }
    if size_wrong(frame) {
        return Err(Refusal::FrameLength); // 8: length not 16(S-(M-C))+10 (signalling: not 10)
    }
    if stamp_wrong(frame) {
        return Err(Refusal::Stamp); // 9: stamp above 200
    }
    Ok(())
}

// A node takes a frame where no number applies.
#[tactic(auto, using(refusals::proofs::RefusalLaws::judged), unfolding(crate::specs::Order::taken_order))]
pub fn taken_order(frame: &[u8]) -> Result<(), Refusal>
    ensures { refusal_of result ≡ taken_order frame.now }
{
    link_order(frame)?;
    if coding_wrong(frame) {
        return Err(Refusal::CodingType); // 6: coding type reserved (voice only)
    }
    layout_order(frame)
}

// So does the voice reader, which takes no signalling frame.
#[tactic(auto, using(refusals::proofs::RefusalLaws::judged), unfolding(crate::specs::Order::read_order))]
pub fn read_order(frame: &[u8]) -> Result<(), Refusal>
    ensures { refusal_of result ≡ read_order frame.now }
{
    link_order(frame)?;
    if !is_voice(frame) {
        return Err(Refusal::Kind); // 19: signalling frame in a voice call
    }
    if coding_wrong(frame) {
        return Err(Refusal::CodingType); // 6: coding type reserved
    }
    layout_order(frame)
}
