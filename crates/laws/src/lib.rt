#![tactic(auto)]

// Plain mathematics for the crates above: definitions and laws only, so nothing runs here.
