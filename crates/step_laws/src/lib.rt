// No code: the theorems that hold of the whole step stand in proofs/.
#![tactic(auto)]
