// Laws on lists, searches and refusals that more than one crate needs: specs/ alone, and no function.
#![tactic(auto)]
