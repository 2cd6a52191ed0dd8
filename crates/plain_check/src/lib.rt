// The check sequence of G.764, section 3.2.5, worked as on paper: an array of bits, divided by x^16 + x^12 + x^5 + 1.
#![tactic(auto)]

ghost use Rattle.std.specs.Prelude.{◌≡◌, [], ◌∷◌, ◌++◌, ◌+◌, ◌-◌, ◌*◌, ◌<◌, ◌≤◌, length, take, drop, replicate};
ghost use Rattle.plain_check.specs.Bits.{bit, number};
ghost use Rattle.plain_check.specs.Check.{message_bits, added, complemented, reduced, remainder, check_octets};

use octets::at;

// Bit k of x; bit 1 is the lowest. Here and below the callers meet the requires.
pub fn bit(k: usize, x: usize) -> u8
    requires { (1 ≤ k) × (k ≤ 8) }
    ensures { (result ≡ bit k x) × (result < 2) }
{
    ((x >> (k - 1)) % 2) as u8
}

// Eight bits as an octet, the lowest first.
pub fn octet_of(bits: &[u8]) -> u8
    requires { (length bits.now ≡ 8) × (number bits.now < 256) }
    ensures { result ≡ number bits.now }
{
    let mut octet: u8 = 0;
    for bit in bits.iter().rev() {
        octet = *bit + 2 * octet;
    }
    octet
}

// The bits of the message, octet by octet, and the sixteen zeros after them: past its end a message has only zeros.
pub fn lay_out(message: &[u8], bits: &mut [u8])
    requires { length bits.old ≡ 8 * length message.now + 16 }
    ensures { bits.new ≡ message_bits message.now ++ replicate 16 0 }
{
    for (i, place) in bits.iter_mut().enumerate() {
        *place = bit(i % 8 + 1, at(message, i / 8));
    }
}

// The upper polynomial is added to the one that stands under it, place by place: the proof knows nothing of what `bits.iter_mut().zip(upper)` writes.
fn add(upper: &[u8], bits: &mut [u8])
    requires { length upper.now ≤ length bits.old }
    ensures { bits.new ≡ added upper.now bits.old }
{
    for (i, x) in upper.iter().enumerate() {
        bits[i] = ((u16::from(*x) + u16::from(bits[i])) % 2) as u8;
    }
}

pub fn complement(bits: &mut [u8])
    requires { 16 ≤ length bits.old }
    ensures { bits.new ≡ complemented bits.old }
{
    add(&[1; 16], bits);
}

// One line of the division.
pub fn reduce(bits: &mut [u8])
    requires { 17 ≤ length bits.old }
    ensures { bits.new ≡ reduced bits.old }
{
    let generator = [1, 0, 0, 0, 1, 0, 0, 0, 0, 0, 0, 1, 0, 0, 0, 0, 1];
    if bits[0] == 1 {
        add(&generator, bits);
    }
}

// Line after line; the sixteen bits at the end are the remainder.
fn divide(bits: &mut [u8])
    requires { 16 ≤ length bits.old }
    ensures { drop (length bits.old - 16) bits.new ≡ remainder bits.old }
{
    for leading in 0..bits.len() - 16 {
        reduce(&mut bits[leading..]);
    }
}

// Sixteen bits as the two octets that carry them.
fn sent(sequence: &[u8]) -> [u8; 2]
    requires { (length sequence.now ≡ 16) × (number (take 8 sequence.now) < 256) × (number (drop 8 sequence.now) < 256) }
    ensures { result ≡ number (take 8 sequence.now) ∷ number (drop 8 sequence.now) ∷ [] }
{
    let (low, high) = sequence.split_at(8);
    [octet_of(low), octet_of(high)]
}

// The whole sum, in an array with room for the message and sixteen bits.
fn worked(message: &[u8], bits: &mut [u8]) -> [u8; 2]
    requires { length bits.old ≡ 8 * length message.now + 16 }
    ensures { result ≡ check_octets message.now }
{
    let n = bits.len() - 16;
    lay_out(message, bits);
    complement(bits);
    divide(bits);
    complement(&mut bits[n..]);
    sent(&bits[n..])
}

// The check sequence of a message of at most 488 octets, as it is sent.
pub fn check(message: &[u8]) -> [u8; 2]
    requires { length message.now ≤ 488 }
    ensures { result ≡ check_octets message.now }
{
    let mut bits: [u8; 3920] = [0; 3920];
    let n = 8 * message.len() + 16;
    worked(message, &mut bits[..n])
}
