// Definitions and theorems only: what the six calls yield, lists of calls, and demand 3, in specs/; proofs/ has what follows from them.
#![tactic(auto)]
