// Flags and zero bits: frames on a lent line of bits, the lowest bit of each octet first.
#![tactic(auto)]

ghost use Rattle.std.specs.Prelude.{◌≡◌, ◌++◌, ◌+◌, ◌*◌, ◌^◌, ◌<◌, ◌≤◌, eqb, length, take, drop, None};
ghost use Rattle.refusals.specs.Refusals.{refusal_of};
ghost use Rattle.bits.specs.Bits.{bits, lowest, value};
ghost use Rattle.bits.specs.Marks.{marks};
ghost use Rattle.bits.specs.Places.{until};
ghost use Rattle.zeros.specs.Parts.{More};
ghost use Rattle.line.specs.Line.{flag, between_refusal};
ghost use Rattle.line.specs.Parts.{sought, sent_as, opened};
ghost use Rattle.line.specs.Calls.{past, over, add_refusal, added_paper, add_answer, add_bits, add_line, taken_off_paper, tells_place, place_told, next_answer, next_out};

use refusals::{Refusal, refusal_1, refusal_16, refuse};
use zeros::{Held, Stretch};

// A frame that was copied out: its length, and the place where it ends.
#[derive(Clone, Copy, Debug, PartialEq, Eq)]
pub struct Found {
    pub length: usize,
    pub place: usize,
}

// Why no frame was copied out; and, where what stands behind a flag is none, the place where it ends.
#[derive(Clone, Copy, Debug, PartialEq, Eq)]
pub struct Stopped {
    pub refusal: Refusal,
    pub place: Option<usize>,
}

// What refuses the call itself tells no place.
impl From<Refusal> for Stopped {
    ghost from_gives = { λ r s. s ≡ record { refusal = r; place = None } };

    fn from(refusal: Refusal) -> Stopped {
        Stopped {
            refusal,
            place: None,
        }
    }
}

// More than the bits of n octets; 8 * n might not fit.
fn past(n: usize, count: usize) -> bool
    ensures { result ≡ past n count }
{
    n < count.div_ceil(8)
}

// What is sought on a line: a flag that opens, or what ends a stretch, a flag or seven ones.
#[derive(Clone, Copy, Debug, PartialEq, Eq)]
enum Sought {
    Opening,
    End,
}

// A one for each of n bits where what is sought begins.
fn mark(w: u64, n: usize, what: Sought) -> u64
    requires { (n ≤ 56) × (w < 2 ^ n) }
    ensures { result ≡ value (marks (sought what) (lowest n w)) }
{
    let zeros = ((1 << n) - 1) - w;
    let two = w & (w >> 1);
    let six = two & (two >> 2) & (two >> 4);
    let flags = zeros & (six >> 1) & (zeros >> 7);
    match what {
        Sought::Opening => flags ^ (flags & ((flags >> 7) | (flags >> 8))),
        Sought::End => flags | (six & (w >> 6)),
    }
}

// The first place from `place` on where what is sought stands; the count where there is none. Inlined, as `piece` of `zeros` is.
#[inline(always)]
fn seek(line: &[u8], count: usize, place: usize, what: Sought) -> usize
    requires { (place ≤ count) × (count ≤ 8 * length line.now) }
    ensures { result ≡ place + until (sought what) (drop place (take count (bits line.now))) }
{
    let mut i = place;
    // a step is as far as the window surely shows, or to the end: no range to go over
    while i < count {
        let n = (count - i).min(56);
        let w = bits::window(line, i, n);
        let j = mark(w, n, what).trailing_zeros() as usize;
        if j < 40 {
            return i + j;
        }
        i += n.min(40);
    }
    i
}

// 22, 23, 1
#[tactic(auto, using(refusals::proofs::RefusalLaws::judged), unfolding(crate::specs::Line::between_refusal))]
fn between_refusal(aborted: bool, n: usize) -> Result<(), Refusal>
    ensures { refusal_of result ≡ between_refusal aborted n }
{
    refuse(n % 8 != 0, Refusal::PartOctet)?;
    refuse(aborted, Refusal::Aborted)?;
    refusal_1(n / 8)
}

// Copies out the next frame from a place on. Refused, or with no frame, out is as it came; so is what is left of it.
pub fn next(
    line: &[u8],
    count: usize,
    place: usize,
    out: &mut [u8],
) -> Result<Option<Found>, Stopped>
    ensures answer { taken_off_paper result ≡ next_answer line.now count place (length out.old) }
    ensures place { tells_place result ≡ place_told (next_answer line.now count place (length out.old)).refusal }
    ensures buffer { out.new ≡ next_out line.now count place out.old }
{
    refuse(past(line.len(), count) | (count < place), Refusal::Record)?;
    let open = seek(line, count, place, Sought::Opening);
    let begin = open + (count - open).min(8);
    let end = seek(line, count, begin, Sought::End);
    if end == count {
        return Ok(None);
    }
    let sent = Stretch {
        octets: line,
        begin,
        end,
    };
    let n = sent.plain_length();
    // not map_err: what its closure answers reaches no law, and the proof doesn't close
    if let Err(refusal) = between_refusal(bits::window(line, end, 1) == 1, n) {
        return Err(Stopped {
            refusal,
            place: Some(end),
        });
    }
    refusal_16(out.len(), n / 8)?;
    sent.carry(false, out, Held::none(0));
    Ok(Some(Found {
        length: n / 8,
        place: end,
    }))
}

// at + more is past the bits of n octets, or past any count.
fn lacks(n: usize, at: usize, more: usize) -> bool
    ensures { result ≡ over n (at + more) }
{
    at.checked_add(more).is_none_or(|count| past(n, count))
}

// What stands on the line before the frame's bits: an opening flag, which only an empty line gets, or the bits that came.
fn open_line(line: &mut [u8], count: usize) -> Held
    requires { (count ≤ 8 * length line.old) × (1 ≤ length line.old) }
    ensures { More line.old line.new 0 0 0 (opened (take count (bits line.old))) result.at result.bits result.n }
{
    if count == 0 {
        line[0] = 126;
        return Held::none(1);
    }
    let n = count % 8;
    Held {
        at: count / 8,
        bits: bits::window(line, count - n, n),
        n,
    }
}

// The closing flag behind the bits that are held, and the count after. The higher bits of the flag's last octet are as they came.
fn close_line(line: &mut [u8], held: Held) -> usize
    requires { (8 * held.at + held.n + 8 ≤ 8 * length line.old) × (8 * held.at + held.n + 8 < 18446744073709551616) }
    ensures answer { result ≡ 8 * held.at + held.n + 8 }
    ensures buffer { bits line.new ≡ bits (take held.at line.old) ++ lowest held.n held.bits ++ flag ++ drop (8 * held.at + held.n + 8) (bits line.old) }
{
    let end = 8 * held.at + held.n + 8;
    let left = (8 - held.n) % 8;
    let higher = bits::window(line, end, left);
    held.put(line, 126 + (higher << 8), 8 + left);
    end
}

// Whether there is no room for what a frame puts on the line, from `begin` on. Where there is room for the most that it may become,
// its bits are not counted.
fn no_room(n: usize, begin: usize, frame: &[u8]) -> bool
    requires { length frame.now ≤ 490 }
    ensures { result ≡ over n (begin + (length (sent_as frame.now) + 8)) }
{
    let end = 8 * frame.len();
    let bits = Stretch {
        octets: frame,
        begin: 0,
        end,
    };
    lacks(n, begin, end + end / 5 + 8) && lacks(n, begin, bits.sent_length() + 8)
}

// 14, 1, 16
#[tactic(auto, using(refusals::proofs::RefusalLaws::judged), unfolding(crate::specs::Calls::add_refusal))]
fn add_refusal(line: &[u8], count: usize, frame: &[u8]) -> Result<(), Refusal>
    ensures { refusal_of result ≡ add_refusal line.now count frame.now }
{
    let n = line.len();
    refuse(past(n, count), Refusal::Record)?;
    refusal_1(frame.len())?;
    let begin = if count == 0 { 8 } else { count };
    refuse(no_room(n, begin, frame), Refusal::Room)
}

// Puts a frame that is not refused on the line, and answers the count after.
fn write(line: &mut [u8], count: usize, frame: &[u8]) -> usize
    requires { add_refusal line.old count frame.now ≡ 0 }
    ensures answer { result ≡ (add_answer line.old count frame.now).count }
    ensures buffer { bits line.new ≡ add_bits line.old count frame.now }
{
    let first = open_line(&mut *line, count);
    let end = 8 * frame.len();
    let bits = Stretch {
        octets: frame,
        begin: 0,
        end,
    };
    let last = bits.carry(true, &mut *line, first);
    close_line(line, last)
}

// Adds a frame to the line of the first count bits, and answers the count after. Refused, no bit is touched; taken, every bit but those added is as it came.
#[tactic(auto, using(refusals::proofs::RefusalLaws::judged, crate::proofs::AddLaws::add_taken), unfolding(crate::specs::Calls::add_answer))]
pub fn add(line: &mut [u8], count: usize, frame: &[u8]) -> Result<usize, Refusal>
    ensures answer { added_paper result ≡ add_answer line.old count frame.now }
    ensures buffer { line.new ≡ add_line line.old count frame.now }
{
    add_refusal(line, count, frame)?;
    Ok(write(line, count, frame))
}
