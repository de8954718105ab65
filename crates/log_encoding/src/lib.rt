// The log encoding: which clauses each setting and each rule has, and what they say. Definitions and theorems only (specs/, proofs/).
#![tactic(auto)]
