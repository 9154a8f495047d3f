// What "one outcome" says, for the theorems of the crates `pins_*`. No code.
#![tactic(auto)]
