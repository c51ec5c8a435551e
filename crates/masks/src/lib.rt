// No code: colours of many voxels in one number, as definitions and laws.
#![tactic(auto)]
