// What is done to a frame on its way: four passes, each of which can be read by itself.
#![tactic(auto)]

ghost use Rattle.std.specs.Prelude.{◌≡◌, ◌+◌, ◌-◌, ◌*◌, ◌^◌, ◌<◌, ◌≤◌, ◌++◌, length, drop};
ghost use Rattle.plain_passes.specs.Passes.{wait_between, blocks_dropped, drop_pass, stamp_pass, address_pass, seal_pass, passed};

use octets::at;

// How long a frame waited, by two readings of a clock that rolls over. Document 01 has this form, a wrapping subtract of two u32; and no usize is
// made by `from` of a u32.
pub fn wait_between(from: u32, to: u32) -> usize
    ensures { (result ≡ wait_between from to) × (result < 2 ^ 32) }
{
    to.wrapping_sub(from) as usize
}

fn blocks_dropped(frame: &[u8], level: usize) -> usize
    ensures { (result ≡ blocks_dropped level frame.now) × (result < 4) }
{
    (at(frame, 4) % 4).min(level)
}

// How long the frame is once its blocks are dropped. Here and below the callers meet the requires.
pub fn length_after(frame: &[u8], level: usize) -> usize
    requires { 10 ≤ length frame.now }
    ensures { result ≡ length (drop_pass level frame.now) }
{
    10 + (frame.len() - 10).saturating_sub(16 * blocks_dropped(frame, level))
}

// One: blocks are dropped from the end of the voice field, and C is lowered.
pub fn drop_pass(frame: &[u8], level: usize, out: &mut [u8])
    requires { (10 ≤ length frame.now) × (length out.old ≡ length (drop_pass level frame.now)) }
    ensures { out.new ≡ drop_pass level frame.now }
{
    let kept = out.len() - 2;
    let end = frame.len() - 2;
    out[..kept].copy_from_slice(&frame[..kept]);
    out[kept..].copy_from_slice(&frame[end..]);
    out[4] = usize::from(frame[4]).saturating_sub(blocks_dropped(frame, level)) as u8;
}

// Two: the wait is added to the time stamp, which stops at 200.
pub fn stamp_pass(wait: usize, out: &mut [u8])
    requires { (wait < 2 ^ 32) × (10 ≤ length out.old) }
    ensures { out.new ≡ stamp_pass wait out.old }
{
    out[5] = (usize::from(out[5]) + wait).min(200) as u8;
}

// Three: the upper six bits of the address go into octet 1, the lower seven into octet 2.
pub fn address_pass(address: usize, out: &mut [u8])
    requires { (address < 8192) × (10 ≤ length out.old) }
    ensures { out.new ≡ address_pass address out.old }
{
    out[0] = (address / 128 * 4) as u8 + out[0] % 4;
    out[1] = (address % 128 * 2) as u8 + out[1] % 2;
}

// Four: the check sequence of octets 1 to 8 is put at the end.
pub fn seal_pass(out: &mut [u8])
    requires { 10 ≤ length out.old }
    ensures { out.new ≡ seal_pass out.old }
{
    let n = out.len();
    let check = plain_check::check(&out[..8]);
    out[n - 2..].copy_from_slice(&check);
}

// One after another, in a buffer as long as the frame that is sent on.
fn all(frame: &[u8], level: usize, wait: usize, address: usize, out: &mut [u8])
    requires { (10 ≤ length frame.now) × (wait < 2 ^ 32) × (address < 8192) × (length out.old ≡ length (drop_pass level frame.now)) }
    ensures { out.new ≡ passed level wait address frame.now }
{
    drop_pass(frame, level, out);
    stamp_pass(wait, out);
    address_pass(address, out);
    seal_pass(out);
}

// The frame sent on, at the front of a buffer with room for it, and its length.
pub fn send_on(frame: &[u8], level: usize, wait: usize, address: usize, out: &mut [u8]) -> usize
    requires { (10 ≤ length frame.now) × (wait < 2 ^ 32) × (address < 8192) × (length (drop_pass level frame.now) ≤ length out.old) }
    ensures { (result ≡ length (passed level wait address frame.now)) × (out.new ≡ passed level wait address frame.now ++ drop result out.old) }
{
    let length = length_after(frame, level);
    all(frame, level, wait, address, &mut out[..length]);
    length
}
