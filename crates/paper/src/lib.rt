// The texts that the programs print, and the promises of the two calls: specs/ and theorems of the promises alone, and no function.
#![tactic(auto)]
