// The call of a tray for a host in C or Rust, on numbers and on slices that are lent.
#![tactic(auto)]

ghost use Rattle.std.specs.Prelude.{◌≡◌};
ghost use Rattle.refusals.specs.Refusals.{◌or_else◌, if_taken};
ghost use Rattle.onward.specs.Onward.{wait_of};
ghost use Rattle.tray.specs.Tray.{tray_answer, tray_buffer, tray_list};
ghost use Rattle.card.specs.Card.{short, written};
ghost use Rattle.card_tray.specs.Trays.{forwarded_numbers};

use card::put;
use onward::Hop;
use refusals::refusal_16;

// The node: a tray of frames sent on.
#[tactic(auto, using(refusals::proofs::RefusalLaws::judged), unfolding(card::specs::Card::written))]
#[unsafe(no_mangle)]
pub extern "C" fn pelgrant_forward_tray(
    tray: &[u8],
    level: u8,
    from: u32,
    to: u32,
    address: u16,
    out: &mut [u8],
    list: &mut [u8],
    answer: &mut [u64],
) -> u8
    ensures number { result ≡ short 2 answer.old or_else (tray_answer level (wait_of from to) address tray.now out.old list.old).refusal }
    ensures answer { answer.new ≡ written (short 2 answer.old) (forwarded_numbers (tray_answer level (wait_of from to) address tray.now out.old list.old)) answer.old }
    ensures out { out.new ≡ if_taken (short 2 answer.old) (tray_buffer level (wait_of from to) address tray.now out.old list.old) out.old }
    ensures list { list.new ≡ if_taken (short 2 answer.old) (tray_list level (wait_of from to) address tray.now out.old list.old) list.old }
{
    if let Err(flat) = refusal_16(answer.len(), 2) {
        return flat.number();
    }
    let hop = Hop {
        level,
        from,
        to,
        address,
    };
    match tray::forward(tray, hop, out, list) {
        Ok(a) => {
            put(&[a.records as u64, a.written as u64], answer);
            0
        }
        Err(refusal) => {
            put(&[0, 0], answer);
            refusal.number()
        }
    }
}
