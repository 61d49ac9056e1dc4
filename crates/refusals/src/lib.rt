// What a call is refused for (document 01, "Refusals that come from the input", "Refusals that come from the state").
#![tactic(auto)]

ghost use Rattle.std.specs.Prelude.{◌≡◌};
ghost use Rattle.refusals.specs.Numbers.{number_of, place_of};

pub mod trying;

// Refusals that come from the input, 1 to 10, 42 and 43. (11 is the program's alone.)
#[derive(Clone, Copy)]
pub enum InputRefusal {
    // the name isn't of that form
    Name = 1,
    // the body is empty, too long, or doesn't end with LF
    Body = 2,
    // line 1 isn't a header
    Header = 3,
    // header and name differ
    Differs = 4,
    // the lines after the header aren't as many as the day's steps
    Lines = 5,
    // a line doesn't begin with its step's two labels
    Labels = 6,
    // the rest of it isn't a power and `;`
    Power = 7,
    // every power is 0
    Zeros = 8,
    // a code or category has a wrong form
    Form = 9,
    // a day, minute, step, power, contract or count of steps is outside its range
    Range = 10,
    // the text is over its length, or isn't the object of a notification, apart from step count, labels and powers
    Object = 42,
    // the origin member isn't the submitter
    Origin = 43,
}

// Refusals that come from the state, 20 to 41.
#[derive(Clone, Copy)]
pub enum StateRefusal {
    // ceder, acquirer not enrolled
    CederUnknown = 20,
    AcquirerUnknown = 21,
    // submitter, or the actor named in another call, not enrolled
    ActorUnknown = 22,
    // category not enrolled
    CategoryUnknown = 23,
    // submitter is neither party
    NotParty = 24,
    // ceder is acquirer
    OneActor = 25,
    // the day is before the clock's; is more than 7 days after it
    DayPast = 26,
    DayFar = 27,
    // the first counted step isn't below the day's step count
    NoStep = 28,
    // the day is outside the contract of the acquirer, of the ceder
    AcquirerContract = 29,
    CederContract = 30,
    // the ceder has no load for the category and day
    NoLoad = 31,
    // ceder below 0; acquirer above its approved power
    CederBelow = 32,
    AcquirerAbove = 33,
    // ceder above its approved power; acquirer below 0
    CederAbove = 34,
    AcquirerBelow = 35,
    // every place is taken, or a lent buffer is too short
    Full = 36,
    // actor, category or load is there already
    There = 37,
    // the clock would go back
    Back = 38,
    // the load's day isn't after the clock's, or its first counted step isn't 0
    LoadDay = 39,
    // no record of that id; the asker isn't a party to it
    NoRecord = 40,
    NotAsker = 41,
}

// A refusal with its place.
#[derive(Clone, Copy)]
pub enum Refusal {
    Input(InputRefusal, u32),
    State(StateRefusal, u32),
}

// Document 01's number of a refusal.
pub fn number_of(r: Refusal) -> u32
    ensures { result ≡ number_of r }
{
    match r {
        Refusal::Input(f, _) => f as u32,
        Refusal::State(f, _) => f as u32,
    }
}

// The place of a refusal; 0 unless document 01 names one.
pub fn place_of(r: Refusal) -> u32
    ensures { result ≡ place_of r }
{
    match r {
        Refusal::Input(_, place) | Refusal::State(_, place) => place,
    }
}
