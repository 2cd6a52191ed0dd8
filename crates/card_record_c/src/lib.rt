// The export of `card_record`: a library that others stand on is no archive, so what a host links stands here.
#![tactic(auto)]

ghost use Rattle.std.specs.Prelude.{◌≡◌, length};
ghost use Rattle.playout.specs.Play.{fresh_record};
ghost use Rattle.card.specs.Card.{written};
ghost use Rattle.card_record.specs.Record.{record_numbers, record_refusal};

// A fresh record.
#[unsafe(no_mangle)]
pub extern "C" fn pelgrant_fresh(buildout: u8, kept: &mut [u64]) -> u8
    ensures number { result ≡ record_refusal (length kept.old) }
    ensures kept { kept.new ≡ written (record_refusal (length kept.old)) (record_numbers (fresh_record buildout)) kept.old }
{
    card_record::pelgrant_fresh(buildout, kept)
}
