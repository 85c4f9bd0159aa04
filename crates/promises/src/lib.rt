// What is promised over lists of events: definitions and theorems alone, and nothing that runs.
#![tactic(auto)]
