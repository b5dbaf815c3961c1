// The job of the programs draw, sheet, mix, unmix and show, each on what the one before it wrote. Definitions and theorems only.
#![tactic(auto)]
