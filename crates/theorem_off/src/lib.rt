// That a drawing reads back: theorems only.
#![tactic(auto)]
