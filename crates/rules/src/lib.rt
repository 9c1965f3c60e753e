// The rules of one dealing and what follows from them. Each function below stands for a theorem, which is its contract; it computes nothing.
#![tactic(auto)]

ghost use Rattle.rules.specs.Cases.{TableHolds};
ghost use Rattle.rules.specs.Promise.{CanFollow, CanPlay, DealsFairly, FairPasses, FairShows, HidesBytes, HidesDealing, HidesSecret, KeepsRules, Main, OneDealing, PlaysKeep};
ghost use Rattle.rules.specs.Wire.{ReadsWhatIsWritten};

// An accepted dealing is of one polynomial.
pub fn main_promise()
    ensures { Main }
{}

// An honest dealer's dealing passes.
pub fn fair_passes()
    ensures { FairPasses }
{}

// What honest keepers show of it the liars hold already.
pub fn fair_shows()
    ensures { FairShows }
{}

// It could as well have been another one.
pub fn hides_dealing()
    ensures { HidesDealing }
{}

// And its secret any other.
pub fn hides_secret()
    ensures { HidesSecret }
{}

// A dealing that is played with bytes could as well have been another one.
pub fn hides_bytes()
    ensures { HidesBytes }
{}

// Message by message, a dealing keeps the rules.
pub fn keeps_rules()
    ensures { KeepsRules }
{}

// And an honest dealer deals fairly.
pub fn deals_fairly()
    ensures { DealsFairly }
{}

// There are such messages, whatever liars say.
pub fn can_follow()
    ensures { CanFollow }
{}

// Bytes are read as a message if and only if they are its bytes and it is in range.
pub fn reads_what_is_written()
    ensures { ReadsWhatIsWritten }
{}

// A dealing that is played with bytes keeps the rules.
pub fn plays_keep()
    ensures { PlaysKeep }
{}

// With at most f liars: accepted, it is of one polynomial; and an honest dealer's is accepted.
pub fn one_dealing()
    ensures { OneDealing }
{}

// There are such plays, whatever is drawn and whatever liars send.
pub fn can_play()
    ensures { CanPlay }
{}

// The worked cases come out as they should.
pub fn table_holds()
    ensures { TableHolds }
{}
