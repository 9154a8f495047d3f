// No code: in every run the depots agree, and each decided entry was proposed.
#![tactic(auto)]
