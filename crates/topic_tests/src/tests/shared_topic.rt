// What the proofs do not see: that calls with memory succeed, and that threads are answered.
mod asks;
mod receipts;
mod rolling;
mod row;
