// Written by tools/pins --write. One outcome of every public call: what the programs share. No code.
#![tactic(auto)]
