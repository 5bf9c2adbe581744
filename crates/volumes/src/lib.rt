// What reading and writing a book promise, and both round trips: specs/ and theorems of the promises alone, and no function.
#![tactic(auto)]
