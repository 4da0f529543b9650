// No code: the scope as definitions, and its demands as theorems.
#![tactic(auto)]
