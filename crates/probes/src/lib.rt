// The theory of the table of probes: w, M and H, heights and widths, what a sound table is, and what validation promises. specs/ and theorems of the promise alone, and no function.
#![tactic(auto)]
