// Written by tools/pins --write. One outcome of every public call: what each event decides. No code.
#![tactic(auto)]
