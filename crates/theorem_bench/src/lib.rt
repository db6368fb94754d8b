// What two groups at one fixture may rely on, stated and proved: theorems only, so nothing runs here.
#![tactic(auto)]
