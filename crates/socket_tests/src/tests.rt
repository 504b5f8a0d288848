// Connections over streams in memory.
mod play;
mod scripted;
mod sending;
mod turns;
