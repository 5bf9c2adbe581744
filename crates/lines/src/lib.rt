// The lines that the programs print: specs/ alone, and no function.
#![tactic(auto)]
