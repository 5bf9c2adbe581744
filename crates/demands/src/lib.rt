// What the calls give together: specs/ alone, and no function.
#![tactic(auto)]
