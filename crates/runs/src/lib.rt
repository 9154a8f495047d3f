// No code: the runs of a cluster of depots, and what is proved of every one of them.
#![tactic(auto)]
