// FORMAT.md, "Rays by a record", as theorems over the promises of its calls (`records` specs/Promises.antt): with the record that building made the answer and lent memory are the plain call's, for each ray;
// when a call refuses, and by which number and place, both ways; that each promise allows one outcome only; and which wrong programs are shut out (proofs/Samples.antt). Stands on the calls and on `demands`; nothing stands above it. No function.
#![tactic(auto)]
