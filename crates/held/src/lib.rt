// No code: what merging holds back, as theorems about what merging answers.
#![tactic(auto)]
