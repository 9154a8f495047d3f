// No code: the theorems that hold of what a step decides stand in proofs/.
#![tactic(auto)]
