// The owner's three demands as theorems over the calls' promises, and that each promise allows one outcome only. The promises stand with the calls (`polar` specs/Promises.antt;
// those of the run calls in `bare`), whose contracts are these. Read proofs/Demand1.antt, Demand2.antt, Demand3.antt; proofs/NoTwelve.antt, Fault.antt and
// Shortest.antt: no call on a file answers 12, which octet is bad, the packing is as short as can be.
// proofs/Samples.antt has what the promises say of small inputs, and proofs/Wrong.antt which wrong programs they shut out, on small whole files (proofs/SampleFiles.antt).
// Stands on all the calls; above it `indexed` and `c_samples`. No function: a theorem that is false is refused like a function that is wrong.
#![tactic(auto)]
