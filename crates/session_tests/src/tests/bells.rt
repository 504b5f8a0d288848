// Bells, one event after another and by threads, and connections that are handed over.
mod bells;
mod ringing;
mod takers;
