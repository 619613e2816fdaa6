// The promise of each public call, in specs/, and what follows from the promises, in proofs/. There is no code here.
#![tactic(auto)]
