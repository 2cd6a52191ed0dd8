// The calls of a line of bits for a host in C or Rust, on numbers and on slices that are lent.
#![tactic(auto)]

ghost use Rattle.std.specs.Prelude.{◌≡◌, length};
ghost use Rattle.refusals.specs.Refusals.{◌or_else◌, if_taken};
ghost use Rattle.line.specs.Calls.{add_answer, add_line, next_answer, next_out};
ghost use Rattle.card.specs.Card.{short, written};
ghost use Rattle.card_line.specs.Lines.{added_numbers, taken_off_numbers};

use card::put;
use refusals::{number_of, refusal_16};

// A frame is put on the line.
#[tactic(auto, using(refusals::proofs::RefusalLaws::judged), unfolding(card::specs::Card::written))]
#[unsafe(no_mangle)]
pub extern "C" fn pelgrant_line_add(
    line: &mut [u8],
    count: usize,
    frame: &[u8],
    answer: &mut [u64],
) -> u8
    ensures number { result ≡ short 1 answer.old or_else (add_answer line.old count frame.now).refusal }
    ensures answer { answer.new ≡ written (short 1 answer.old) (added_numbers (add_answer line.old count frame.now)) answer.old }
    ensures line { line.new ≡ if_taken (short 1 answer.old) (add_line line.old count frame.now) line.old }
{
    if let Err(flat) = refusal_16(answer.len(), 1) {
        return flat.number();
    }
    let added = line::add(line, count, frame);
    let after = added.unwrap_or(0);
    put(&[after as u64], answer);
    number_of(&added)
}

// The next frame is taken off the line.
#[tactic(auto, using(refusals::proofs::RefusalLaws::judged), unfolding(card::specs::Card::written))]
#[unsafe(no_mangle)]
pub extern "C" fn pelgrant_line_next(
    line: &[u8],
    count: usize,
    place: usize,
    out: &mut [u8],
    answer: &mut [u64],
) -> u8
    ensures number { result ≡ short 3 answer.old or_else (next_answer line.now count place (length out.old)).refusal }
    ensures answer { answer.new ≡ written (short 3 answer.old) (taken_off_numbers (next_answer line.now count place (length out.old))) answer.old }
    ensures out { out.new ≡ if_taken (short 3 answer.old) (next_out line.now count place out.old) out.old }
{
    if let Err(flat) = refusal_16(answer.len(), 3) {
        return flat.number();
    }
    let (number, numbers) = match line::next(line, count, place, out) {
        Ok(Some(found)) => (0, [1, found.length as u64, found.place as u64]),
        Ok(None) => (0, [0; 3]),
        Err(stopped) => (
            stopped.refusal.number(),
            [0, 0, stopped.place.unwrap_or(0) as u64],
        ),
    };
    put(&numbers, answer);
    number
}
