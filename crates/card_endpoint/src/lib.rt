// What an endpoint without a record does for a host in C or Rust: the readers, fill and the noise levels.
#![tactic(auto)]

ghost use Rattle.std.specs.Prelude.{◌≡◌, [], ◌∷◌, length};
ghost use Rattle.refusals.specs.Refusals.{◌or_else◌};
ghost use Rattle.coding.specs.Noise.{noise_of, paper};
ghost use Rattle.endpoint.specs.Outcome.{told_paper};
ghost use Rattle.endpoint.specs.Fill.{fill_of};
ghost use Rattle.endpoint.specs.Read.{read_answer};
ghost use Rattle.endpoint.specs.Signal.{signal_answer};
ghost use Rattle.card.specs.Card.{short, short_two, written};
ghost use Rattle.card_endpoint.specs.Hearing.{noise_numbers, told_numbers, heard_numbers, signal_numbers};

use card::{flag, put, short_two};
use coding::Noise;
use endpoint::Told;
use refusals::{Refusal, number_of, refusal_16};

// What the voice reader answers beside its samples, as numbers: zeros where a frame is refused.
#[tactic(auto, unfolding(endpoint::specs::Outcome::told_paper))]
fn told_numbers(told: Result<Told, Refusal>) -> [u64; 3]
    ensures { result ≡ told_numbers (told_paper told) }
{
    match told {
        Ok(t) => [u64::from(t.s), u64::from(t.dropped), u64::from(t.width)],
        Err(_) => [0; 3],
    }
}

// The voice reader.
#[tactic(auto, using(refusals::proofs::RefusalLaws::judged, endpoint::proofs::ReadLaws::heard_long, endpoint::proofs::ReadLaws::heard_number), unfolding(card::specs::Card::written, card::specs::Card::put, endpoint::specs::Read::read_answer))]
#[unsafe(no_mangle)]
pub extern "C" fn pelgrant_read(frame: &[u8], answer: &mut [u64], samples: &mut [u8]) -> u8
    ensures number { result ≡ short_two 3 answer.old 128 samples.old or_else (read_answer frame.now).refusal }
    ensures answer { answer.new ≡ written (short_two 3 answer.old 128 samples.old) (heard_numbers (read_answer frame.now)) answer.old }
    ensures samples { samples.new ≡ written (short_two 3 answer.old 128 samples.old) (read_answer frame.now).samples samples.old }
{
    if let Err(flat) = short_two(answer.len(), 3, samples.len(), 128) {
        return flat.number();
    }
    let told = endpoint::tell(frame::voice_refusal(frame), frame);
    put(&told_numbers(told), answer);
    endpoint::hear_into(&told, frame, samples);
    number_of(&told)
}

// The signalling reader.
#[tactic(auto, using(refusals::proofs::RefusalLaws::judged), unfolding(card::specs::Card::written, endpoint::specs::Signal::signal_paper))]
#[unsafe(no_mangle)]
pub extern "C" fn pelgrant_signal_read(buildout: u8, frame: &[u8], answer: &mut [u64]) -> u8
    ensures number { result ≡ short 3 answer.old or_else (signal_answer buildout frame.now).refusal }
    ensures answer { answer.new ≡ written (short 3 answer.old) (signal_numbers (signal_answer buildout frame.now)) answer.old }
{
    if let Err(flat) = refusal_16(answer.len(), 3) {
        return flat.number();
    }
    match endpoint::signal(buildout, frame) {
        Ok(a) => {
            put(
                &[u64::from(a.bits), u64::from(a.na), u64::from(a.hold)],
                answer,
            );
            0
        }
        Err(refusal) => {
            put(&[0; 3], answer);
            refusal.number()
        }
    }
}

// What to play in the absence of packets.
#[tactic(auto, using(refusals::proofs::RefusalLaws::judged, crate::proofs::HearingLaws::fill_fits), unfolding(card::specs::Card::written, card::specs::Card::put))]
#[unsafe(no_mangle)]
pub extern "C" fn pelgrant_fill<'a>(
    last: &'a [u8],
    noise: &'a [u8],
    mlast: u8,
    out: &mut [u8],
    answer: &mut [u64],
) -> u8
    ensures number { result ≡ short_two 1 answer.old 128 out.old }
    ensures answer { answer.new ≡ written (short_two 1 answer.old 128 out.old) (length (fill_of last.now noise.now mlast) ∷ []) answer.old }
    ensures out { out.new ≡ written (short_two 1 answer.old 128 out.old) (fill_of last.now noise.now mlast) out.old }
{
    if let Err(flat) = short_two(answer.len(), 1, out.len(), 128) {
        return flat.number();
    }
    let part = endpoint::fill(last, noise, mlast);
    put(&[part.len() as u64], answer);
    octets::copy(part, out);
    0
}

// The noise answer without its enum, as C takes it.
#[derive(Clone, Copy)]
struct NoiseFacts {
    number: u8,
    idle: bool,
    level: f64,
}

#[tactic(auto, unfolding(coding::specs::Noise::paper))]
fn noise_facts(noise: Noise) -> NoiseFacts
    ensures { (result.number ≡ (paper noise).number) × (result.idle ≡ (paper noise).idle) × (result.level ≡ (paper noise).level) }
{
    match noise {
        Noise::Idle => NoiseFacts {
            number: 0,
            idle: true,
            level: 0.0,
        },
        Noise::Level(x) => NoiseFacts {
            number: 0,
            idle: false,
            level: x,
        },
        Noise::Refused(n) => NoiseFacts {
            number: n,
            idle: false,
            level: 0.0,
        },
    }
}

// The level that a noise code stands for.
#[tactic(auto, using(refusals::proofs::RefusalLaws::judged), unfolding(card::specs::Card::written, card::specs::Card::put))]
#[unsafe(no_mangle)]
pub extern "C" fn pelgrant_noise_level(code: u8, answer: &mut [u64], level: &mut [f64]) -> u8
    ensures number { result ≡ short_two 1 answer.old 1 level.old or_else (noise_of code).number }
    ensures answer { answer.new ≡ written (short_two 1 answer.old 1 level.old) (noise_numbers (noise_of code)) answer.old }
    ensures level { level.new ≡ written (short_two 1 answer.old 1 level.old) ((noise_of code).level ∷ []) level.old }
{
    if let Err(flat) = short_two(answer.len(), 1, level.len(), 1) {
        return flat.number();
    }
    let a = noise_facts(coding::noise_level(code));
    put(&[flag(a.idle)], answer);
    level[0] = a.level;
    a.number
}
