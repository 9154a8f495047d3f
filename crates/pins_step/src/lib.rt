// Written by tools/pins --write. One outcome of every public call: what is written, and the whole step. No code.
#![tactic(auto)]
