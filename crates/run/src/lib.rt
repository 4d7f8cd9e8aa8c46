// Runs of calls from a start, and what an accepted check tells of them (demand 3): definitions and theorems, no code.
#![tactic(auto)]
