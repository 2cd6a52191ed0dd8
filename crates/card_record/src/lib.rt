// The endpoint's record for a host in C or Rust, as nine numbers: fresh, and moved on by a frame that comes.
#![tactic(auto)]

ghost use Rattle.std.specs.Prelude.{◌≡◌, ◌≤◌, length};
ghost use Rattle.playout.specs.Play.{fresh_record};
ghost use Rattle.card.specs.Card.{put as put_before, written};
ghost use Rattle.card_record.specs.Record.{arrival_numbers, record_numbers, record_of, record_refusal, refused_arrival, told_numbers, numbers_arrival};

use card::put;
use endpoint::Scheduled;
use playout::Endpoint;
use refusals::{Refusal, number_of};

// The greatest number that fits a count.
const COUNT_LIMIT: u64 = 4294967295;

fn record_numbers(e: Endpoint) -> [u64; 9]
    ensures { result ≡ record_numbers e }
{
    [
        u64::from(e.buildout),
        u64::from(e.rseq),
        e.lastclock,
        e.end,
        u64::from(e.mlast),
        u64::from(e.lastnoise),
        u64::from(e.scheduled),
        u64::from(e.late),
        u64::from(e.missing),
    ]
}

// A fresh record. Here and below the number is C's: these are the exports, but for their archives.
#[tactic(auto, unfolding(card::specs::Card::written))]
pub fn pelgrant_fresh(buildout: u8, kept: &mut [u64]) -> u8
    ensures number { result ≡ record_refusal (length kept.old) }
    ensures kept { kept.new ≡ written (record_refusal (length kept.old)) (record_numbers (fresh_record buildout)) kept.old }
{
    if kept.len() != 9 {
        return Refusal::Record.number();
    }
    put(&record_numbers(endpoint::fresh(buildout)), kept);
    0
}

// What an arrival answers beside its samples, as numbers: zeros where it is refused.
fn told_numbers(outcome: Result<Scheduled, Refusal>) -> [u64; 5]
    ensures { result ≡ told_numbers outcome }
{
    match outcome {
        Ok(a) => [
            a.due,
            u64::from(a.reset),
            u64::from(a.told.s),
            u64::from(a.told.dropped),
            u64::from(a.told.width),
        ],
        Err(_) => [0; 5],
    }
}

// What a record that is none gets: 14, and zeros elsewhere. Both exported arrivals refuse shorter slices first.
#[tactic(auto, using(refusals::proofs::RefusalLaws::judged), unfolding(card::specs::Card::put, endpoint::specs::Read::heard_of))]
pub fn no_record(frame: &[u8], answer: &mut [u64], samples: &mut [u8]) -> u8
    requires { (5 ≤ length answer.old) × (128 ≤ length samples.old) }
    ensures number { result ≡ 14 }
    ensures answer { answer.new ≡ put_before (arrival_numbers (refused_arrival 14)) answer.old }
    ensures samples { samples.new ≡ put_before (refused_arrival 14).samples samples.old }
{
    let none = Err(Refusal::Record);
    put(&told_numbers(none), answer);
    endpoint::hear_into(&none, frame, samples);
    number_of(&none)
}

// The arrival on the nine numbers of a record. A number that fits no field of the record is 14, and the numbers are then left as they came.
// Both exported arrivals refuse shorter slices first.
pub fn arrival(
    kept: [u64; 9],
    frame: &[u8],
    clock: u64,
    after: &mut [u64],
    answer: &mut [u64],
    samples: &mut [u8],
) -> u8
    requires { (9 ≤ length after.old) × (5 ≤ length answer.old) × (128 ≤ length samples.old) }
    ensures number { result ≡ (numbers_arrival (record_of kept) frame.now clock).answer.refusal }
    ensures after { after.new ≡ put_before (record_numbers (numbers_arrival (record_of kept) frame.now clock).after) after.old }
    ensures answer { answer.new ≡ put_before (arrival_numbers (numbers_arrival (record_of kept) frame.now clock).answer) answer.old }
    ensures samples { samples.new ≡ put_before (numbers_arrival (record_of kept) frame.now clock).answer.samples samples.old }
{
    let [
        buildout,
        rseq,
        lastclock,
        end,
        mlast,
        lastnoise,
        scheduled,
        late,
        missing,
    ] = kept;
    // Joined by `|`, and cast where they fit: a record mostly fits, and seven conversions that may fail would be seven branches.
    let unfit = (255 < buildout)
        | (255 < rseq)
        | (255 < mlast)
        | (255 < lastnoise)
        | (COUNT_LIMIT < scheduled)
        | (COUNT_LIMIT < late)
        | (COUNT_LIMIT < missing);
    if unfit {
        let came = [
            buildout, rseq, lastclock, end, mlast, lastnoise, scheduled, late, missing,
        ];
        put(&came, after);
        return no_record(frame, answer, samples);
    }
    let before = Endpoint {
        buildout: buildout as u8,
        rseq: rseq as u8,
        lastclock,
        end,
        mlast: mlast as u8,
        lastnoise: lastnoise as u8,
        scheduled: scheduled as u32,
        late: late as u32,
        missing: missing as u32,
    };
    let j = endpoint::judge(before, frame, clock);
    put(&told_numbers(j.outcome), answer);
    put(&record_numbers(j.after), after);
    endpoint::hear_into(&j.outcome, frame, samples);
    number_of(&j.outcome)
}
