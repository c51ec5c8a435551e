// No code: sure and possible contact, as definitions and as theorems on them.
#![tactic(auto)]
