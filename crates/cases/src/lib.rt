// No code: worked cases of the definitions that the contracts cite, in specs/, and their theorem, in proofs/.
#![tactic(auto)]
