// Written by tools/pins --write. One outcome of every public call: the hire book and the report. No code.
#![tactic(auto)]
