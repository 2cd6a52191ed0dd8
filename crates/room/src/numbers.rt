//! A record's numbers as a call goes by them: in a record, or in a host's slice.
ghost use Rattle.std.specs.Prelude.{◌≡◌, length};
ghost use Rattle.ring.specs.Parts.{Slots};

// What a record shows without its slots: the first frame's place in the store and its slot, how many wait, and the three totals.
#[derive(Clone, Copy)]
pub struct Outline<'a> {
    pub head: u32,
    pub first: u32,
    pub count: u32,
    pub totals: &'a [u32],
    ghost three: { length totals.now ≡ 3 },
}

// And the 32 slots, each length an octet, as a number that a machine adds four at a time.
#[derive(Clone, Copy)]
pub struct Numbers<'a> {
    pub outline: Outline<'a>,
    pub lengths: &'a [u32],
    ghost slots: { Slots lengths.now },
}
