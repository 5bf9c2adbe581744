// What the exports promise: specs/ and theorems of the promise alone, and no function.
#![tactic(auto)]
