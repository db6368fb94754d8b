// The demands of document 01, stated and proved: theorems only, so nothing runs here.
#![tactic(auto)]
