// What the proofs do not see: that calls with memory succeed, and worked sessions from outside.
mod admins;
mod closing;
mod consumers;
mod failing;
mod memory;
mod producers;
mod side;
mod stage;
mod waits;
mod watched;
