// Who holds the wire, and when two probes meet on it: specs/ alone, and no function.
#![tactic(auto)]
