// What a comma file is, and what becomes of it. The definitions are in specs/.
#![tactic(auto)]
