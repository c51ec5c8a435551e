// What a caller relies on, as theorems about what the entry points answer and write.
#![tactic(auto)]
