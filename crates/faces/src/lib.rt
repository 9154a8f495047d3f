// No code: each handler of a step, as protocol events of `travels`. The definitions stand in specs/, the theorems in proofs/.
#![tactic(auto)]
