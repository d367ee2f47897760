// Definitions and theorems only: the logic is written down in specs/, what is proved of it in proofs/.
#![tactic(auto)]
