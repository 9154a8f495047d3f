// No code: the theorems that hold of the hire book's rules stand in proofs/.
#![tactic(auto)]
