// What the reader and the writer of the notification file come to together, each taken by its own contract. There is no
// code here: the theorem is in proofs/.
#![tactic(auto)]
