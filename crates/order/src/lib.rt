// The order in which probes are planned: specs/ alone, and no function.
#![tactic(auto)]
