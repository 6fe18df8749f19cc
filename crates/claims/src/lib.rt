// Nothing runs here. The claims about the whole product stand in specs/, one file each, and specs/Claims.antt is the page that gathers them; proofs/ proves each.
#![tactic(auto)]
