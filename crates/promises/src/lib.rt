// What is promised of the whole: the demands at the real tag, each call's numbers, and the examples. No code.
#![tactic(auto)]
