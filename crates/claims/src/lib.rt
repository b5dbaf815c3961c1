// The claims of the whole, over the outcomes of the calls: demands 1, 2 and 3, the month table, and what requests of 02 claim of calls
// (the same report, listed orders, the converter, positions). Definitions and theorems only.
#![tactic(auto)]
