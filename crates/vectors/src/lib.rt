// Tests only: tables of cases, each a queue with something wrong and the refusal that answers.
#![tactic(auto)]

#[cfg(test)]
mod refusals;
