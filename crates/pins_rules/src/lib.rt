// Written by tools/pins --write. One outcome of every public call: the rules of ballots, numbers, quorums and the leader record. No code.
#![tactic(auto)]
