// What the conversions and the planner ask before they write anything: specs/ alone, and no function.
#![tactic(auto)]
