// The calls as definitions, and the user's demands of them as theorems.
#![tactic(auto)]
