// No code: runs of a cluster with a restart that forgets, computed: each breaks the claim on runs.
#![tactic(auto)]
