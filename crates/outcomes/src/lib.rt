// No code: one outcome for each public function.
#![tactic(auto)]
