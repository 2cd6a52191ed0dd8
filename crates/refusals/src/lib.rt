// Why a call is refused, one variant for each number, and the tests that more than one order makes.
#![tactic(auto)]

ghost use Rattle.std.specs.Prelude.{◌≡◌};
ghost use Rattle.refusals.specs.Refusals.{number, refusal_of, refuse, refusal1, refusal10, refusal12, refusal15, refusal16, address_bad};

#[derive(Clone, Copy, Debug, PartialEq, Eq)]
pub enum Refusal {
    FrameSize = 1,
    Address = 2,
    Control = 3,
    CheckSequence = 4,
    Protocol = 5,
    CodingType = 6,
    Dropping = 7,
    FrameLength = 8,
    Stamp = 9,
    Level = 10,
    Samples = 11,
    Bits = 12,
    OutOfTurn = 13,
    Record = 14,
    OutgoingAddress = 15,
    Room = 16,
    Late = 17,
    Clock = 18,
    Kind = 19,
    TooFarAhead = 20,
    NotOffered = 21,
    PartOctet = 22,
    Aborted = 23,
    CommandOrPoll = 24,
    QueueFull = 25,
    QueueEmpty = 26,
    Tray = 27,
}

impl Refusal {
    pub fn number(self) -> u8
        ensures { result ≡ number self }
    {
        self as u8
    }
}

// The number by which a call is refused; 0 where it is done.
pub fn number_of<T>(answer: &Result<T, Refusal>) -> u8
    ensures { result ≡ refusal_of answer.now }
{
    match answer {
        Ok(_) => 0,
        Err(refusal) => refusal.number(),
    }
}

pub fn refuse(applies: bool, refusal: Refusal) -> Result<(), Refusal>
    ensures { refusal_of result ≡ refuse applies (number refusal) }
{
    if applies { Err(refusal) } else { Ok(()) }
}

pub fn address_bad(a: usize) -> bool
    ensures { result ≡ address_bad a }
{
    (a < 128) | (8063 < a)
}

pub fn refusal_1(length: usize) -> Result<(), Refusal>
    ensures { refusal_of result ≡ refusal1 length }
{
    refuse((length < 10) | (490 < length), Refusal::FrameSize)
}

pub fn refusal_10(level: usize) -> Result<(), Refusal>
    ensures { refusal_of result ≡ refusal10 level }
{
    refuse(3 < level, Refusal::Level)
}

pub fn refusal_12(bits: u8, na: u8) -> Result<(), Refusal>
    ensures { refusal_of result ≡ refusal12 bits na }
{
    refuse((15 < bits) | (1 < na), Refusal::Bits)
}

pub fn refusal_15(address: usize) -> Result<(), Refusal>
    ensures { refusal_of result ≡ refusal15 address }
{
    refuse(address_bad(address), Refusal::OutgoingAddress)
}

pub fn refusal_16(room: usize, length: usize) -> Result<(), Refusal>
    ensures { refusal_of result ≡ refusal16 room length }
{
    refuse(room < length, Refusal::Room)
}
