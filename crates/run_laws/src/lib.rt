// No code: what else holds in every run, of decided entries, of the step with its row lent, of the report, and of a power cut.
#![tactic(auto)]
