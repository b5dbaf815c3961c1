// The questions that more than one call asks: definitions and laws only. The calls ask them.
#![tactic(auto)]
