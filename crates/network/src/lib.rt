// The network: definitions and theorems only. What runs stands in `apply` and `control`.
#![tactic(auto)]
