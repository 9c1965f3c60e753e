// Courts through all nights, fed with bytes, and what follows from the rules. Each function below stands for a theorem, which is its contract; it computes nothing.
#![tactic(auto)]

ghost use Rattle.courts.specs.Promise.{CanPlay, OverInTime, Theorem};

// With at most f liars that send anything to anybody and put anything on the board: every accepted dealing is of one polynomial; honest dealers pass; the secret stays, can be had back, and is hidden from whoever is spied out.
pub fn theorem()
    ensures { Theorem }
{}

// There are such runs, whatever is drawn and whatever liars send.
pub fn can_play()
    ensures { CanPlay }
{}

// A night in which all is said in time is over.
pub fn over_in_time()
    ensures { OverInTime }
{}
