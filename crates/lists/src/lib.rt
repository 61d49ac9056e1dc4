// Tests, searches and sums over lists and over the numbers below a bound, and the search for a byte of a text and small
// numbers in code. The definitions are in specs/, what is true of them in proofs/.
#![tactic(auto)]

pub mod bytes;
pub mod numbers;
