// The customer's demands, in specs/, as theorems about what the public calls answer.
#![tactic(auto)]
