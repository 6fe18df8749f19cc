// The programs, each as a function that answers its exit status, which the program's `main` hands to the system.
#![tactic(auto)]

mod answering;
pub mod framelines;
pub mod respell;
