// All nights, and what follows from the rules. Each function below stands for a theorem, which is its contract; it computes nothing.
#![tactic(auto)]

ghost use Rattle.nights.specs.Promise.{CanBeKept, CanPlay, HadBack, OnePolynomial, PlaysKeeps, Theorem, TheoremOfNights};

// Through all nights the secret stays, can be had back, and is hidden.
pub fn theorem()
    ensures { Theorem }
{}

// The rules can be kept.
pub fn can_be_kept()
    ensures { CanBeKept }
{}

// Nights played by the rules keep the rules.
pub fn plays_keeps()
    ensures { PlaysKeeps }
{}

// The theorem holds of nights of messages.
pub fn theorem_of_nights()
    ensures { TheoremOfNights }
{}

// There are such nights, whatever liars say.
pub fn can_play()
    ensures { CanPlay }
{}

// Two polynomials of low degree that agree at enough keepers are one.
pub fn one_polynomial()
    ensures { OnePolynomial }
{}

// Two that all but f values lie on are one.
pub fn had_back()
    ensures { HadBack }
{}
