// What takes, puts and accepted checks leave written down, whatever calls made them: definitions and theorems, no code.
#![tactic(auto)]
