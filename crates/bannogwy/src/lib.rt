// The calls that C links, one for each in include/bannogwy.h. Only a static library exports, and no crate can stand on one; so each call here only makes
// structs of the numbers and slices of C, and calls a function of a library.
#![tactic(auto)]

mod deliver_calls;
mod packet_calls;
mod stack_calls;
mod table_calls;
mod tally_call;
