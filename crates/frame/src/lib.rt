// A frame: its fields, what refuses it, and the two calls that say what it is.
#![tactic(auto)]

ghost use Rattle.std.specs.Prelude.{◌≡◌, cond, ◌<◌};
ghost use Rattle.refusals.specs.Refusals.{refusal_of};
ghost use Rattle.coding.specs.Coding.{droppable_bits};
ghost use Rattle.frame.specs.Fields.{address, command_bit, poll_bit, control, is_voice, field_m, field_c, stamp, more_bit, coding, sequence, noise, na, signal_bits, covered};
ghost use Rattle.frame.specs.Orders.{refusal2, refusal3, refusal24, refusal4, refusal5, refusal6, refusal7, refusal8, refusal9, refusal19, legal_length, link_refusal, layout_refusal, taken_refusal, voice_refusal, signal_refusal};
ghost use Rattle.frame.specs.Calls.{link_answer, taken_answer, link_paper, taken_paper};

use coding::Coding;
use octets::at;
use refusals::{Refusal, refuse};

pub fn address_of(frame: &[u8]) -> usize
    ensures { (result ≡ address frame.now) × (result < 8192) }
{
    at(frame, 0) / 4 * 128 + at(frame, 1) / 2
}

pub fn command_bit(frame: &[u8]) -> usize
    ensures { result ≡ command_bit frame.now }
{
    at(frame, 0) / 2 % 2
}

pub fn poll_bit(frame: &[u8]) -> usize
    ensures { result ≡ poll_bit frame.now }
{
    at(frame, 2) / 16 % 2
}

pub fn control_of(frame: &[u8]) -> usize
    ensures { result ≡ control frame.now }
{
    at(frame, 2) / 32 * 32 + at(frame, 2) % 16
}

pub fn is_voice(frame: &[u8]) -> bool
    ensures { result ≡ is_voice frame.now }
{
    control_of(frame) == 239
}

pub fn field_m(frame: &[u8]) -> usize
    ensures { (result ≡ field_m frame.now) × (result < 4) }
{
    at(frame, 4) / 16 % 4
}

pub fn field_c(frame: &[u8]) -> usize
    ensures { (result ≡ field_c frame.now) × (result < 4) }
{
    at(frame, 4) % 4
}

pub fn coding_of(frame: &[u8]) -> Coding
    ensures { result.0 ≡ coding frame.now }
{
    Coding((at(frame, 6) % 32) as u8)
}

pub fn stamp_of(frame: &[u8]) -> u8
    ensures { result ≡ stamp frame.now }
{
    at(frame, 5) as u8
}

// A bit, here and in `na_of`, is the number that a record or a watch keeps of it, which may be out of range (14, 12) as no bool can.
pub fn more_bit(frame: &[u8]) -> u8
    ensures { (result ≡ more_bit frame.now) × (result < 2) }
{
    (at(frame, 6) / 128 % 2) as u8
}

pub fn sequence_of(frame: &[u8]) -> u8
    ensures { (result ≡ sequence frame.now) × (result < 16) }
{
    (at(frame, 7) / 16 % 16) as u8
}

pub fn noise_of(frame: &[u8]) -> u8
    ensures { (result ≡ noise frame.now) × (result < 16) }
{
    (at(frame, 7) % 16) as u8
}

pub fn na_of(frame: &[u8]) -> u8
    ensures { (result ≡ na frame.now) × (result < 2) }
{
    (at(frame, 6) % 2) as u8
}

pub fn signal_bits(frame: &[u8]) -> u8
    ensures { (result ≡ signal_bits frame.now) × (result < 16) }
{
    (at(frame, 7) % 16) as u8
}

fn refusal_2(frame: &[u8]) -> Result<(), Refusal>
    ensures { refusal_of result ≡ refusal2 frame.now }
{
    let outside = refusals::address_bad(address_of(frame));
    refuse(
        (at(frame, 0) % 2 != 0) | (at(frame, 1) % 2 != 1) | outside,
        Refusal::Address,
    )
}

fn refusal_3(frame: &[u8]) -> Result<(), Refusal>
    ensures { refusal_of result ≡ refusal3 frame.now }
{
    let control = control_of(frame);
    refuse((control != 239) & (control != 3), Refusal::Control)
}

fn refusal_24(frame: &[u8]) -> Result<(), Refusal>
    ensures { refusal_of result ≡ refusal24 frame.now }
{
    let command = command_bit(frame);
    let poll = poll_bit(frame);
    refuse((command != 0) | (poll != 0), Refusal::CommandOrPoll)
}

// How many octets the check sequence covers.
fn covered(frame: &[u8]) -> usize
    ensures { result ≡ covered frame.now }
{
    if is_voice(frame) {
        return 8;
    }
    frame.len().saturating_sub(2)
}

fn refusal_4(frame: &[u8]) -> Result<(), Refusal>
    ensures { refusal_of result ≡ refusal4 frame.now }
{
    refuse(!fcs::good(frame, covered(frame)), Refusal::CheckSequence)
}

fn refusal_5(frame: &[u8]) -> Result<(), Refusal>
    ensures { refusal_of result ≡ refusal5 frame.now }
{
    refuse(at(frame, 3) != 68, Refusal::Protocol)
}

fn refusal_6(frame: &[u8]) -> Result<(), Refusal>
    ensures { refusal_of result ≡ refusal6 frame.now }
{
    refuse(
        is_voice(frame) & coding_of(frame).reserved(),
        Refusal::CodingType,
    )
}

// The M that a frame of its kind must have.
fn legal_m(frame: &[u8]) -> usize
    ensures { result ≡ cond (is_voice frame.now) (droppable_bits (coding frame.now)) 0 }
{
    if is_voice(frame) {
        usize::from(coding_of(frame).droppable_bits())
    } else {
        0
    }
}

fn legal_length(frame: &[u8]) -> usize
    ensures { result ≡ legal_length frame.now }
{
    if !is_voice(frame) {
        return 10;
    }
    let dropped = field_m(frame).saturating_sub(field_c(frame));
    coding_of(frame).frame_length(dropped)
}

fn refusal_7(frame: &[u8]) -> Result<(), Refusal>
    ensures { refusal_of result ≡ refusal7 frame.now }
{
    let m = field_m(frame);
    refuse(
        (m != legal_m(frame)) | (m < field_c(frame)),
        Refusal::Dropping,
    )
}

fn refusal_8(frame: &[u8]) -> Result<(), Refusal>
    ensures { refusal_of result ≡ refusal8 frame.now }
{
    refuse(frame.len() != legal_length(frame), Refusal::FrameLength)
}

fn refusal_9(frame: &[u8]) -> Result<(), Refusal>
    ensures { refusal_of result ≡ refusal9 frame.now }
{
    refuse(200 < stamp_of(frame), Refusal::Stamp)
}

#[tactic(auto, using(refusals::proofs::RefusalLaws::judged), unfolding(crate::specs::Orders::layout_refusal))]
fn layout_refusal(frame: &[u8]) -> Result<(), Refusal>
    ensures { refusal_of result ≡ layout_refusal frame.now }
{
    refusal_7(frame)?;
    refusal_8(frame)?;
    refusal_9(frame)
}

// The kind that the call is of is compared, and chooses nothing.
fn refusal_19(frame: &[u8], voicecall: bool) -> Result<(), Refusal>
    ensures { refusal_of result ≡ refusal19 voicecall frame.now }
{
    refuse(is_voice(frame) != voicecall, Refusal::Kind)
}

// 1 to 5 with 24. What costs no sum is judged first: a frame of a megabyte, or one of another protocol, is refused at once.
#[tactic(auto, using(refusals::proofs::RefusalLaws::judged), unfolding(crate::specs::Orders::link_refusal))]
pub fn link_refusal(frame: &[u8]) -> Result<(), Refusal>
    ensures { refusal_of result ≡ link_refusal frame.now }
{
    refusals::refusal_1(frame.len())?;
    refusal_2(frame)?;
    refusal_3(frame)?;
    refusal_24(frame)?;
    refusal_4(frame)?;
    refusal_5(frame)
}

#[tactic(auto, using(refusals::proofs::RefusalLaws::judged), unfolding(crate::specs::Orders::taken_refusal))]
pub fn taken_refusal(frame: &[u8]) -> Result<(), Refusal>
    ensures { refusal_of result ≡ taken_refusal frame.now }
{
    link_refusal(frame)?;
    refusal_6(frame)?;
    layout_refusal(frame)
}

#[tactic(auto, using(refusals::proofs::RefusalLaws::judged), unfolding(crate::specs::Orders::voice_refusal))]
pub fn voice_refusal(frame: &[u8]) -> Result<(), Refusal>
    ensures { refusal_of result ≡ voice_refusal frame.now }
{
    link_refusal(frame)?; // whole, before it is asked whether it is voice
    refusal_19(frame, true)?;
    refusal_6(frame)?;
    layout_refusal(frame)
}

#[tactic(auto, using(refusals::proofs::RefusalLaws::judged), unfolding(crate::specs::Orders::signal_refusal))]
pub fn signal_refusal(frame: &[u8]) -> Result<(), Refusal>
    ensures { refusal_of result ≡ signal_refusal frame.now }
{
    link_refusal(frame)?; // whole, before it is asked of which kind it is
    refusal_19(frame, false)?;
    layout_refusal(frame)
}

// What a frame that is whole and in its form is.
#[derive(Clone, Copy, Debug, PartialEq, Eq)]
pub struct LinkFacts {
    pub voice: bool,
    pub address: u16,
}

// Whether a frame is whole and in its form (1 to 5 with 24), and what it is: voice or not, and its address.
#[tactic(auto, using(refusals::proofs::RefusalLaws::judged), unfolding(crate::specs::Calls::link_answer, crate::specs::Calls::link_paper))]
pub fn link(frame: &[u8]) -> Result<LinkFacts, Refusal>
    ensures { link_paper result ≡ link_answer frame.now }
{
    link_refusal(frame)?;
    Ok(LinkFacts {
        voice: is_voice(frame),
        address: address_of(frame) as u16,
    })
}

#[derive(Clone, Copy, Debug, PartialEq, Eq)]
pub struct TakenFacts {
    pub voice: bool,
    pub length: usize,
    pub c: u8,
}

// Whether a node takes a frame (1 to 9 with 24), and what it is: voice or not, its length, and its C.
#[tactic(auto, using(refusals::proofs::RefusalLaws::judged), unfolding(crate::specs::Calls::taken_answer, crate::specs::Calls::taken_paper))]
pub fn taken(frame: &[u8]) -> Result<TakenFacts, Refusal>
    ensures { taken_paper result ≡ taken_answer frame.now }
{
    taken_refusal(frame)?;
    Ok(TakenFacts {
        voice: is_voice(frame),
        length: frame.len(),
        c: field_c(frame) as u8,
    })
}
