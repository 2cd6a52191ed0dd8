// The check sequence of ISO 3309: worked out over octets, tested on a frame, and put into one.
#![tactic(auto)]

ghost use Rattle.std.specs.Prelude.{◌≡◌, [], ◌∷◌, ◌++◌, ℕ, ◌+◌, ◌/◌, ◌%◌, ◌<◌, ◌≤◌, length, take, drop};
ghost use Rattle.fcs.specs.Fcs.{fcs_bits, fcs_run, fcs_of, fcs_octets, fcs_good};

// One octet: what a table would hold at k is three shifts of one number, so there is no table.
fn octet(reg: u16, o: u8) -> u16
    ensures { result ≡ fcs_bits 8 reg o }
{
    let k = (reg ^ u16::from(o)) % 256;
    let x = (k ^ (k * 16)) % 256;
    (reg / 256) ^ ((x * 256) ^ (x * 8) ^ (x / 16))
}

// Sixteen zero bits, fed to a register of sixteen.
fn sixteen(a: u16) -> u16
    ensures { result ≡ fcs_bits 16 a 0 }
{
    let t = a ^ (a << 4);
    let q = t ^ (t << 8) ^ (a << 11);
    q ^ (q >> 5) ^ (q >> 12)
}

// Of a register of 32 bits, one that 32 zero bits bring to where 64 bring the first. The generator's square is
// x^32 + x^24 + x^10 + 1, so the shifts are twice those above.
fn folded_32(a: u32) -> u32
    ensures { fcs_bits 32 result 0 ≡ fcs_bits 32 (fcs_bits 32 a 0) 0 }
{
    let t = a ^ (a << 8);
    let q = t ^ (t << 16) ^ (a << 22);
    q ^ (q >> 10) ^ (q >> 24)
}

// The same of 64 bits, by twice the shifts again: eight octets take one step.
// Each width keeps its function: one over all three would ask for a trait of the operators with their laws, to save three lines.
fn folded_64(a: u64) -> u64
    ensures { fcs_bits 64 result 0 ≡ fcs_bits 64 (fcs_bits 64 a 0) 0 }
{
    let t = a ^ (a << 16);
    let q = t ^ (t << 32) ^ (a << 44);
    q ^ (q >> 20) ^ (q >> 48)
}

// As many zero bits as the register has, fed to it half by half. The two differ in the types of the halves, and in the rule for the low one.
fn ended_32(a: u32) -> u16
    ensures { result ≡ fcs_bits 32 a 0 }
{
    let low = sixteen((a % 65536) as u16);
    sixteen(((a / 65536) as u16) ^ low)
}

fn ended_64(a: u64) -> u16
    ensures { result ≡ fcs_bits 64 a 0 }
{
    let low = folded_32((a % 4294967296) as u32);
    ended_32(((a / 4294967296) as u32) ^ low)
}

// Eight octets as one number, fed at once.
fn eight(octets: &[u8; 8]) -> u64
    ensures { (reg : ℕ) → fcs_bits 64 reg result ≡ fcs_run reg octets.now }
{
    bits::eight(octets, 0)
}

// Octets one by one.
fn rest(s: &[u8], before: u16) -> u16
    ensures { result ≡ fcs_run before s.now }
{
    let mut reg = before;
    for o in s {
        reg = octet(reg, *o);
    }
    reg
}

pub fn fcs(s: &[u8]) -> u16
    ensures { result ≡ fcs_of s.now }
{
    let Some((first, mut left)) = s.split_first_chunk::<8>() else {
        return 65535 - rest(s, 65535);
    };
    let mut reg = eight(first) ^ 65535;
    while let Some((next, behind)) = left.split_first_chunk::<8>() {
        reg = folded_64(reg) ^ eight(next);
        left = behind;
    }
    65535 - rest(left, ended_64(reg))
}

// The check of eight octets, with no loop: of a voice frame, and of every signalling frame that is taken.
fn of_eight(octets: &[u8; 8]) -> u16
    ensures { result ≡ fcs_of octets.now }
{
    65535 - ended_64(eight(octets) ^ 65535)
}

// The check of a frame's head that is not yet in memory.
pub fn head(octets: [u8; 8]) -> u16
    ensures { result ≡ fcs_of octets }
{
    of_eight(&octets)
}

fn first(s: &[u8], n: usize) -> u16
    requires { n ≤ length s.now }
    ensures { result ≡ fcs_of (take n s.now) }
{
    let part = &s[..n];
    match <&[u8; 8]>::try_from(part) {
        Ok(octets) => of_eight(octets),
        Err(_) => fcs(part),
    }
}

// Whether the last two octets of frame are the check of its first n, or of all where it has fewer.
pub fn good(frame: &[u8], n: usize) -> bool
    ensures { result ≡ fcs_good n frame.now }
{
    let len = frame.len();
    let low = octets::at(frame, len.saturating_sub(2));
    let high = octets::at(frame, len.saturating_sub(1));
    let check = first(frame, n.min(len));
    low + 256 * high == usize::from(check)
}

// A check at `at`, the low octet first. The node's proof and that of `seal` show the room.
pub fn put(out: &mut [u8], check: u16, at: usize)
    requires { at + 2 ≤ length out.old }
    ensures { out.new ≡ take at out.old ++ (check % 256 ∷ check / 256 ∷ []) ++ drop (at + 2) out.old }
{
    out[at..at + 2].copy_from_slice(&check.to_le_bytes());
}

// Puts the check of the first n octets of out at `at`. The origin's proofs show the room.
pub fn seal(out: &mut [u8], n: usize, at: usize)
    requires { (n ≤ at) × (at + 2 ≤ length out.old) }
    ensures { out.new ≡ take at out.old ++ fcs_octets (take n out.old) ++ drop (at + 2) out.old }
{
    let check = first(out, n);
    put(out, check, at);
}
