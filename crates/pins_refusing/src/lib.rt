// Written by tools/pins --write. One outcome of every public call: what is seen of the lists, and the refusals. No code.
#![tactic(auto)]
