#![tactic(auto)]

// Document 01's definitions, in specs/, and their laws, in proofs/. There is no code here.
