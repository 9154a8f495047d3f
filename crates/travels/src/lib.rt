// No code: what travels between depots is true, and stays so through every protocol event. The definitions stand in specs/, the theorems in proofs/.
#![tactic(auto)]
