// The worked examples of document 01: the table stands in specs/, what it claims in specs/Claims.antt, the proof in proofs/.
#![tactic(auto)]
