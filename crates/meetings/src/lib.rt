// What the checker promises: specs/ and theorems of the promise alone, and no function.
#![tactic(auto)]
