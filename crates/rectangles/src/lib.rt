// What the conversions and the planner promise: specs/ and theorems of the promises alone, and no function.
#![tactic(auto)]
