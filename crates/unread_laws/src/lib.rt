// No code: a step reads nothing of the places past the depots, nor of cells that nothing uses.
#![tactic(auto)]
