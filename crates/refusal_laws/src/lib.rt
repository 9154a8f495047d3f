// No code: the rows of the table of refusals, for the whole step, stand in specs/, the theorems in proofs/.
#![tactic(auto)]
