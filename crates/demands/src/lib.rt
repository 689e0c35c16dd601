// Definitions and theorems alone: the demands, by the public functions' own promises.
#![tactic(auto)]
