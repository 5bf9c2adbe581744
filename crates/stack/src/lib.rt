// The stack of reads in rows, first fit, and the packing verdict: specs/ alone, and no function.
#![tactic(auto)]
