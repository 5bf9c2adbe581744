// Wrong results that each promise shuts out: one table for each public call. specs/ alone, and no function.
#![tactic(auto)]
