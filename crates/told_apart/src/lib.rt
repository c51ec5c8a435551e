// No code: every public function asks nothing, and two answers that its contract allows are equal.
#![tactic(auto)]
