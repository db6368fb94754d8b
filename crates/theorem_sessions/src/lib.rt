// The demands on what sessions and benches hold, stated and proved: theorems only, so nothing runs here.
#![tactic(auto)]
