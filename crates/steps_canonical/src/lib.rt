// The setting that the setter's steps make: theorems only. What runs stands in `control`.
#![tactic(auto)]
