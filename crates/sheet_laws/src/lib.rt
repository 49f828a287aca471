// The laws of sheets: the two round trips. There is no code here, only specs/ and proofs/.

#![tactic(auto)]
