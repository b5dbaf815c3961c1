// The setter's steps: definitions and theorems only. What runs stands in `control`.
#![tactic(auto)]
