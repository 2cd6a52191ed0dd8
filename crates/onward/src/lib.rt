// What origin and node share: the wait, the stamp, the blocks dropped, and octets 1 to 8 of the frame that is sent on.
#![tactic(auto)]

ghost use Rattle.std.specs.Prelude.{◌≡◌, ℕ, ◌+◌, ◌-◌, ◌*◌, ◌/◌, ◌%◌, ◌^◌, ◌<◌, ◌≤◌, ◌++◌, length, drop};
ghost use Rattle.octets.specs.Octets.{octet};
ghost use Rattle.onward.specs.Onward.{wait_of, stamp_after, dropped, onward_head, onward};

// How a frame is sent on: the level of dropping, the clock readings between which it waited, and the outgoing address.
#[derive(Clone, Copy, Debug, PartialEq, Eq)]
pub struct Hop {
    pub level: u8,
    pub from: u32,
    pub to: u32,
    pub address: u16,
}

impl Hop {
    // A clock that rolls over does no harm.
    pub fn wait(self) -> usize
        ensures { (result ≡ wait_of self.from self.to) × (result < 2 ^ 32) }
    {
        self.to.wrapping_sub(self.from) as usize
    }
}

// Here and below `head` meets the requires.
#[tactic(auto, unfolding(crate::specs::Onward::stamp_after))]
fn stamp_after(old: u8, wait: usize) -> u8
    requires { wait < 2 ^ 32 }
    ensures { result ≡ stamp_after old wait }
{
    std::cmp::min(200, usize::from(old) + wait) as u8
}

fn dropped_of(frame: &[u8], level: usize) -> usize
    ensures { (result ≡ dropped level frame.now) × (result < 4) }
{
    frame::field_c(frame).min(level)
}

// How long the frame sent on is, whatever its wait and address.
pub fn onward_length(frame: &[u8], level: usize) -> usize
    ensures { (wait addr : ℕ) → result ≡ length (onward level wait addr frame.now) }
{
    let field = frame.len().saturating_sub(10);
    10 + field.saturating_sub(16 * dropped_of(frame, level))
}

fn octet_1(address: usize, old: u8) -> u8
    requires { address < 8192 }
    ensures { result ≡ address / 128 * 4 + old % 4 }
{
    (address / 128 * 4 + usize::from(old) % 4) as u8
}

fn octet_2(address: usize, old: u8) -> u8
    ensures { result ≡ address % 128 * 2 + old % 2 }
{
    (address % 128 * 2 + usize::from(old) % 2) as u8
}

fn octet_5(frame: &[u8], level: usize) -> u8
    requires { 8 ≤ length frame.now }
    ensures { result ≡ octet 5 frame.now - dropped level frame.now }
{
    usize::from(frame[4]).saturating_sub(dropped_of(frame, level)) as u8
}

// Octets 1 to 8 of the frame sent on. The node's proof and that of `put_head` meet the requires.
pub fn head(frame: &[u8], level: usize, wait: usize, address: usize) -> [u8; 8]
    requires { (8 ≤ length frame.now) × (wait < 2 ^ 32) × (address < 8192) }
    ensures { result ≡ onward_head level wait address frame.now }
{
    [
        octet_1(address, frame[0]),
        octet_2(address, frame[1]),
        frame[2],
        frame[3],
        octet_5(frame, level),
        stamp_after(frame[5], wait),
        frame[6],
        frame[7],
    ]
}

// The same, to the front of a buffer. The origin's proofs meet the requires.
pub fn put_head(frame: &[u8], level: usize, wait: usize, address: usize, out: &mut [u8])
    requires { (8 ≤ length frame.now) × (wait < 2 ^ 32) × (address < 8192) × (8 ≤ length out.old) }
    ensures { out.new ≡ onward_head level wait address frame.now ++ drop 8 out.old }
{
    let made = head(frame, level, wait, address);
    octets::copy(&made, out);
}
