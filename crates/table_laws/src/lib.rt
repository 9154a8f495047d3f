// No code: the rows 4 and 7 of the table of refusals in its own words stand in specs/, the theorems in proofs/.
#![tactic(auto)]
