// From a rule to its card, and what demand 3 says of the two. The definitions are in specs/.
#![tactic(auto)]
