// The C interface for traces: one replayed, and one added to a report. It is a library of its own, beside `toolsapi`.
#![tactic(auto)]

mod figures;
mod replay_call;
