// How the bytes of a tables file are made from its sizes and its cells. The definitions are in specs/.
#![tactic(auto)]
