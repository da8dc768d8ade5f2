// What the promises to C come to: the octet at fault is read back from a run call's word (proofs/Fault.antt); no octets that give a row are fewer than run write's answer says (proofs/Shortest.antt); on small samples the word that is returned and every lent memory are written out, whatever the program (proofs/Wrong.antt). Stands on `polar_c`, whose promises they are, and
// on `demands` and `indexed`, whose samples they go by; nothing stands above it. No function.
#![tactic(auto)]
