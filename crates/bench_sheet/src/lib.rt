// Document 01's bench sheet: its cases marked P as one table, proved by one theorem. specs/ alone, and no function.
#![tactic(auto)]
