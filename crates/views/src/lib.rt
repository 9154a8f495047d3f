// No code: what a step does to a depot's lists, seen as lists of entries and of messages.
#![tactic(auto)]
