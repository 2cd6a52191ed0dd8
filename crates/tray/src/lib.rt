// A tray of frames in one call: the node's call on the frame of each record in turn.
#![tactic(auto)]

ghost use Rattle.std.specs.Prelude.{◌≡◌, ◌++◌, ◌+◌, ◌≤◌, true, false, length, drop, MatchOption};
ghost use Rattle.onward.specs.Onward.{wait_of, onward};
ghost use Rattle.onward.specs.Sent.{sent_paper, sent_answer, sent_buffer};
ghost use Rattle.octets.specs.Records.{following};
ghost use Rattle.tray.specs.Tray.{whole, read, record_head, record_of, frame_refusal, numbers, outgoing, forwarded_paper, tray_answer, tray_buffer, tray_list};
ghost use Rattle.tray.specs.Parts.{Counts};

use octets::two_octets;
use onward::Hop;
use refusals::{Refusal, number_of, refuse};

// The records counted, and the octets written.
#[derive(Clone, Copy, Debug, PartialEq, Eq)]
pub struct Forwarded {
    pub records: usize,
    pub written: usize,
}

// The octets of the record that stands at the front, if one does. Its four octets are asked for once, not each by itself.
fn record_size(rest: &[u8]) -> Option<usize>
    ensures { MatchOption result (whole rest.now ≡ false) (λ n. (whole rest.now ≡ true) × (n ≡ 2 + following rest.now)) }
{
    if rest.len() < 4 {
        return None;
    }
    let n = two_octets(rest, 1);
    let whole = (two_octets(rest, 3) == 1) & (2 <= n) & (2 + n <= rest.len());
    if whole { Some(2 + n) } else { None }
}

// How many records a tray begins with, and where what is left begins.
#[derive(Clone, Copy)]
struct Records {
    count: usize,
    end: usize,
}

fn count_records(tray: &[u8]) -> Records
    ensures { Counts tray.now result.count result.end }
{
    let mut count = 0;
    let mut end = 0;
    while let Some(size) = record_size(&tray[end..]) {
        end += size;
        count += 1;
    }
    Records { count, end }
}

// The four octets before a frame of n octets; `forward_record` has written the frame behind them.
fn put_head(n: usize, out: &mut [u8])
    requires { 4 + n ≤ length out.old }
    ensures { out.new ≡ record_head n ++ drop 4 out.old }
{
    let length = (((n + 2) % 65536) as u16).to_le_bytes();
    out[..4].copy_from_slice(&[length[0], length[1], 1, 0]);
}

// One frame, sent on as a record; the length answered counts the four octets too.
fn forward_record(hop: Hop, frame: &[u8], out: &mut [u8]) -> Result<usize, Refusal>
    ensures answer { sent_paper result ≡ sent_answer (frame_refusal hop.level (wait_of hop.from hop.to) hop.address frame.now (length out.old)) (record_of (onward hop.level (wait_of hop.from hop.to) hop.address frame.now)) }
    ensures buffer { out.new ≡ sent_buffer (frame_refusal hop.level (wait_of hop.from hop.to) hop.address frame.now (length out.old)) (record_of (onward hop.level (wait_of hop.from hop.to) hop.address frame.now)) out.old }
{
    let start = out.len().min(4);
    let length = node::forward(frame, hop, &mut out[start..])?;
    put_head(length, out);
    Ok(length + 4)
}

// The frames of a tray's records, one after the other; answers the octets written. `forward` has counted the records: `list` has a place for each.
fn forward_records(hop: Hop, tray: &[u8], out: &mut [u8], list: &mut [u8]) -> usize
    requires { length list.old ≡ length (read tray.now).frames }
    ensures written { result ≡ length (outgoing hop.level (wait_of hop.from hop.to) hop.address tray.now (length out.old)) }
    ensures buffer { out.new ≡ outgoing hop.level (wait_of hop.from hop.to) hop.address tray.now (length out.old) ++ drop (length (outgoing hop.level (wait_of hop.from hop.to) hop.address tray.now (length out.old))) out.old }
    ensures list { list.new ≡ numbers hop.level (wait_of hop.from hop.to) hop.address tray.now (length out.old) }
{
    let mut rest = tray;
    let mut written = 0;
    for number in list.iter_mut() {
        let (record, behind) = rest.split_at(2 + two_octets(rest, 1));
        let sent = forward_record(hop, &record[4..], &mut out[written..]);
        *number = number_of(&sent);
        written += sent.unwrap_or(0);
        rest = behind;
    }
    written
}

// The node's call on each frame of the tray. Where the tray is refused, out and list are as they came; else so is what is past what was written.
pub fn forward(tray: &[u8], hop: Hop, out: &mut [u8], list: &mut [u8]) -> Result<Forwarded, Refusal>
    ensures answer { forwarded_paper result ≡ tray_answer hop.level (wait_of hop.from hop.to) hop.address tray.now out.old list.old }
    ensures buffer { out.new ≡ tray_buffer hop.level (wait_of hop.from hop.to) hop.address tray.now out.old list.old }
    ensures list { list.new ≡ tray_list hop.level (wait_of hop.from hop.to) hop.address tray.now out.old list.old }
{
    let Records { count, end } = count_records(tray);
    refuse((end < tray.len()) | (list.len() < count), Refusal::Tray)?;
    let written = forward_records(hop, tray, out, &mut list[..count]);
    Ok(Forwarded {
        records: count,
        written,
    })
}
