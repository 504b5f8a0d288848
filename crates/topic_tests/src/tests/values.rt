// What the definitions are held to from outside: Murmur's published hashes, Pulsar's ids of messages, and the shares of
// the hash range that were worked out by hand.
mod hashes;
mod ids;
mod shares;
