// Written by tools/pins --write. One outcome of every public call: records, rows, events and configurations as words. No code.
#![tactic(auto)]
