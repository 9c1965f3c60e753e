// Worked examples, run as tests. Expected values were worked out by hand.
#![tactic(auto)]

#[cfg(test)]
mod bytes;
#[cfg(test)]
mod numbers;
#[cfg(test)]
mod shares;
