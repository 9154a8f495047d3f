// The agreement core: why no two depots decide differently. No code: the definitions stand in specs/, the theorems in proofs/.
#![tactic(auto)]
