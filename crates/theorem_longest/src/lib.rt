// How long a listing can be, stated and proved: theorems only, so nothing runs here.
#![tactic(auto)]
