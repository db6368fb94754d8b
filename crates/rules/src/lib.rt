#![tactic(auto)]

// The written rules of a scene file, and what the judge's answers say of them: theorems only, so nothing runs here.
