// What a host asks of the machine and is answered: refusals, causes, reports; and, in the definitions, what each call means.
#![tactic(auto)]

pub mod cause;
pub mod laws;
pub mod refusal;
