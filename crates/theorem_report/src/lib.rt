// That a report reads back: theorems only.
#![tactic(auto)]
