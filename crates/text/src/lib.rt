// The statement text. What reading and writing answer is defined in specs/, with the theorems on texts; the code that reads and
// writes stands in crates of its own.
#![tactic(auto)]
