// Numbers from the desk, proved of the rules under one claim; the linked calls have one outcome; wrong answers that promises rule out. No code.
#![tactic(auto)]
