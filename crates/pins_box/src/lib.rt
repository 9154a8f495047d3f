// Written by tools/pins --write. One outcome of every public call: the deciding box and its record, and what it plans. No code.
#![tactic(auto)]
