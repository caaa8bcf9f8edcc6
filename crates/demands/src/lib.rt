// The theorems stand in specs/. No function.
#![tactic(auto)]
