// Sessions that the machine's definitions compute: theorems in specs/, no code.
#![tactic(auto)]
