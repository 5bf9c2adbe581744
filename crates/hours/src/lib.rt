// What the timetable promises: specs/ and theorems of the promises alone, and no function.
#![tactic(auto)]
