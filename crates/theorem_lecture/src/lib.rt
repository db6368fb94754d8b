// The theorem of the lecture, stated and proved: theorems only, so nothing runs here.
#![tactic(auto)]
