// No code: cells that nothing uses keep what they held.
#![tactic(auto)]
