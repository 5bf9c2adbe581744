// The theory of one block of the book and of all blocks: bytes, layout, sums, records, verdicts. specs/ alone, and no function.
#![tactic(auto)]
