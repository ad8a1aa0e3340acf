//! Kilbotu for C: passes as handles, which a C program holds. `k42.h` says what it calls.
#![tactic(auto)]

mod exports;
