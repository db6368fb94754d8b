// That the calls from C have no second answer, stated and proved: theorems only, so nothing runs here.
#![tactic(auto)]
