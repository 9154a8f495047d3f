// No code: runs of four depots whose quorums miss each other, computed: each breaks the claim on runs.
#![tactic(auto)]
