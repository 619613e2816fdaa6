// What only proofs need of pictures: the calls on trees, records and memories, in specs/, and their theorems, in proofs/. There is no code here.
#![tactic(auto)]
