// No code: runs of a cluster over links that do what links may not do, computed: agreement fails, or an entry that was proposed once is decided twice.
#![tactic(auto)]
