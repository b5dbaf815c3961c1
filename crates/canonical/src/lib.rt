// The canonical setting of an order: definitions and theorems only. What runs stands in `control`.
#![tactic(auto)]
