// Everything that is claimed of the whole, in one record with one proof. Definitions and theorems only.
#![tactic(auto)]
