// No code: runs of a cluster that are computed, move by move: what the claim on runs is about, and why it needs our rule and links that keep their order.
#![tactic(auto)]
