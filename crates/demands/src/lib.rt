// No code: what the product promises, as theorems on the definitions.
#![tactic(auto)]
